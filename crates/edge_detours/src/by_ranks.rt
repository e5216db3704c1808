//! The redundant edges by ranks: one walk for each rank, over the edges between ranks.
ghost use Rattle.std.specs.Prelude.{◌≡◌, ◌==◌, true, ℕ, ◌<◌, ◌^◌, length, map, IfOk, OnOk, if◌then◌else◌, slice_set};
ghost use Rattle.fact_rows.specs.Member.{In};
ghost use Rattle.fact_rows.specs.Rows.{row};
ghost use Rattle.fact_rows.specs.Marks.{IsMarked};
ghost use Rattle.edge_detours.specs.Reach.{AreWithin};
ghost use Rattle.edge_detours.specs.Redundant.{AreRedundant};
ghost use Rattle.edge_detours.specs.inner.Rows.{IsRising, IsInside};
ghost use Rattle.edge_detours.specs.inner.Ranks.{AreRanks, ranked};
ghost use Rattle.edge_detours.specs.inner.Flags.{Flags, Turns, AreFlagged};

use crate::detours::mark_detours;
use crate::ranks::rank_of;
use crate::rows::rows_of;
use fact_rows::{Pairs, fresh_marks, is_marked, pairs_at};
use std::alloc::{AllocError, Global};

/// The edges between the ranks of their ends, in the same places.
fn ranked_edges(
    alloc: Global,
    edges: &[(u32, u32)],
    ranks: &[u32],
) -> Result<Vec<(u32, u32)>, AllocError>
    ensures { IfOk result (λ made. made.items ≡ ranked ranks.now edges.now) }
{
    let mut made = Vec::new(alloc);
    for (a, c) in edges {
        made.push((rank_of(ranks, *a), rank_of(ranks, *c)))?;
    }
    Ok(made)
}

/// A flag for each edge, set where its ends are one node.
fn loop_flags(alloc: Global, edges: &[(u32, u32)]) -> Result<Vec<bool>, AllocError>
    ensures { IfOk result (λ flags. flags.items ≡ map (λ e. e.0 == e.1) edges.now) }
{
    let mut flags = Vec::new(alloc);
    for (a, c) in edges {
        flags.push(*a == *c)?;
    }
    Ok(flags)
}

/// Sets a flag where that is wanted.
fn flag_if(flags: &mut [bool], is_wanted: bool, at: u32)
    requires { at < length flags.old }
    ensures { flags.new ≡ (if is_wanted then slice_set flags.old at true else flags.old) }
{
    if is_wanted {
        flags[at as usize] = true;
    }
}

/// Flags the edges whose ends are marked.
fn flag_marked(targets: &[(u32, u32)], start: u32, marks: &[u32], flags: &mut [bool])
    requires { (c i : ℕ) → In (c, i) targets.now → i < length flags.old }
    ensures { Flags targets.now start marks.now flags.old flags.new }
{
    for (c, i) in targets {
        let is_wanted = is_marked(marks, start, *c);
        flag_if(flags, is_wanted, *i);
    }
}

/// Flags the edges from one rank that have a detour.
fn flag_detours_from(
    alloc: Global,
    rows: &[Pairs],
    start: u32,
    marks: &mut [u32],
    flags: &mut [bool],
) -> Result<(), AllocError>
    requires rising { IsRising rows.now }
    requires inside { IsInside (length marks.old) rows.now }
    requires clear { (x : ℕ) → IsMarked marks.old start x → ⊥ }
    requires places { (c i : ℕ) → In (c, i) (row rows.now start) → i < length flags.old }
    ensures { OnOk result (Turns rows.now start marks.old marks.new flags.old flags.new) }
{
    let targets = pairs_at(rows, start);
    mark_detours(alloc, rows, start, marks)?;
    flag_marked(targets, start, marks, flags);
    Ok(())
}

/// Flags the edges that have a detour, from each rank.
fn flag_detours(
    alloc: Global,
    node_count: u32,
    rows: &[Pairs],
    flags: &mut [bool],
) -> Result<(), AllocError>
    requires rising { IsRising rows.now }
    requires inside { IsInside node_count rows.now }
    requires places { (k c i : ℕ) → In (c, i) (row rows.now k) → i < length flags.old }
    ensures { OnOk result (AreFlagged rows.now node_count flags.old flags.new) }
{
    let mut marks = fresh_marks(alloc, node_count, node_count)?;
    let seen = marks.as_mut_slice();
    for start in 0..node_count {
        flag_detours_from(alloc, rows, start, seen, flags)?;
    }
    Ok(())
}

/// The flags of the redundant edges, by ranks of the nodes.
pub fn redundant_by_ranks(
    alloc: Global,
    node_count: u32,
    edges: &[(u32, u32)],
    ranks: &[u32],
) -> Result<Vec<bool>, AllocError>
    requires within { AreWithin node_count edges.now }
    requires small { length edges.now < 2 ^ 32 }
    requires ranks { AreRanks edges.now node_count ranks.now }
    ensures { IfOk result (λ flags. AreRedundant edges.now flags.items) }
{
    let ends = ranked_edges(alloc, edges, ranks)?;
    let rows = rows_of(alloc, node_count, ends.as_slice())?;
    let mut flags = loop_flags(alloc, edges)?;
    flag_detours(alloc, node_count, rows.as_slice(), flags.as_mut_slice())?;
    Ok(flags)
}
