//! The test of ranks: each is below the count of nodes, no edge falls, and nodes of one rank reach one another.
ghost use Rattle.std.specs.Prelude.{◌≡◌, ℕ, ◌<◌, ◌≤◌, ◌^◌, [], length, replicate, IfOk, IfSome, OnOk, true, false};
ghost use Rattle.fact_rows.specs.Member.{In};
ghost use Rattle.fact_rows.specs.Marks.{IsFlagged};
ghost use Rattle.edge_detours.specs.Reach.{AreWithin};
ghost use Rattle.edge_detours.specs.inner.Rows.{AreRows, swapped};
ghost use Rattle.edge_detours.specs.inner.Ranks.{rank, AreRanks};
ghost use Rattle.edge_detours.specs.inner.Roots.{AreFromRoots, Admits, ReachesSame};

use crate::components::{find_ranks, find_roots};
use crate::rows::{rows_of, swapped_edges};
use fact_rows::{Pairs, fresh_flags, pairs_at};
use std::alloc::{AllocError, Global};

/// The rank of a node, 0 past the last.
pub fn rank_of(ranks: &[u32], x: u32) -> u32
    ensures { result ≡ rank ranks.now x }
{
    match ranks.get(x as usize) {
        Some(found) => *found,
        None => 0,
    }
}

/// Flags a node, which waits if it had no flag.
fn admit(flags: &mut [bool], stack: &mut Vec<u32>, y: u32) -> Result<(), AllocError>
    ensures { OnOk result (Admits y flags.old flags.new stack.old.items stack.new.items) }
{
    if y as usize >= flags.len() || flags[y as usize] {
        return Ok(());
    }
    flags[y as usize] = true;
    stack.push(y)?;
    Ok(())
}

/// Flags a node where that is wanted.
fn admit_if(
    flags: &mut [bool],
    stack: &mut Vec<u32>,
    is_wanted: bool,
    y: u32,
) -> Result<(), AllocError>
    ensures on { is_wanted ≡ true → OnOk result (Admits y flags.old flags.new stack.old.items stack.new.items) }
    ensures off { is_wanted ≡ false → OnOk result ((flags.new ≡ flags.old) × (stack.new.items ≡ stack.old.items)) }
{
    if is_wanted {
        admit(flags, stack, y)
    } else {
        Ok(())
    }
}

/// Flags the roots, which wait.
fn admit_roots(
    node_count: u32,
    ranks: &[u32],
    roots: &[u32],
    flags: &mut [bool],
    stack: &mut Vec<u32>,
) -> Result<(), AllocError>
    requires clear { flags.old ≡ replicate (length flags.old) false }
    requires empty { stack.old.items ≡ [] }
    ensures flags { OnOk result ((x : ℕ) → IsFlagged flags.new x → rank roots.now (rank ranks.now x) ≡ x) }
    ensures stack { OnOk result ((x : ℕ) → In x stack.new.items → rank roots.now (rank ranks.now x) ≡ x) }
{
    for x in 0..node_count {
        let is_root = rank_of(roots, rank_of(ranks, x)) == x;
        admit_if(flags, stack, is_root, x)?;
    }
    Ok(())
}

/// Flags the ends of edges from a node that have its rank.
fn reach_same(
    targets: &[(u32, u32)],
    ranks: &[u32],
    x: u32,
    flags: &mut [bool],
    stack: &mut Vec<u32>,
) -> Result<(), AllocError>
    ensures { OnOk result (ReachesSame targets.now ranks.now x flags.old flags.new stack.old.items stack.new.items) }
{
    for (y, _) in targets {
        let is_same = rank_of(ranks, *y) == rank_of(ranks, x);
        admit_if(flags, stack, is_same, *y)?;
    }
    Ok(())
}

/// Whether all have a flag.
fn all_flagged(flags: &[bool]) -> bool
    ensures { result ≡ true → (x : ℕ) → x < length flags.now → IsFlagged flags.now x }
{
    for flag in flags {
        if !*flag {
            return false;
        }
    }
    true
}

/// Whether each node was reached from the root of its rank, by edges within the rank.
fn are_from_roots(
    alloc: Global,
    node_count: u32,
    rows: &[Pairs],
    ranks: &[u32],
    roots: &[u32],
) -> Result<bool, AllocError>
    requires long { length ranks.now ≡ node_count }
    ensures { IfOk result (λ all. all ≡ true → AreFromRoots rows.now ranks.now roots.now) }
{
    let mut made = fresh_flags(alloc, node_count)?;
    let flags = made.as_mut_slice();
    let mut stack = Vec::new(alloc);
    admit_roots(node_count, ranks, roots, flags, &mut stack)?;
    for _turn in 0..node_count {
        let Some(x) = stack.pop() else {
            break;
        };
        reach_same(pairs_at(rows, x), ranks, x, flags, &mut stack)?;
    }
    Ok(all_flagged(flags))
}

/// Whether no edge falls.
fn no_edge_falls(edges: &[(u32, u32)], ranks: &[u32]) -> bool
    ensures { result ≡ true → (a c : ℕ) → In (a, c) edges.now → rank ranks.now a ≤ rank ranks.now c }
{
    for (a, c) in edges {
        if rank_of(ranks, *c) < rank_of(ranks, *a) {
            return false;
        }
    }
    true
}

/// Whether all ranks are below the count.
fn are_below(node_count: u32, ranks: &[u32]) -> bool
    ensures { result ≡ true → (x : ℕ) → x < length ranks.now → rank ranks.now x < node_count }
{
    for rank in ranks {
        if node_count <= *rank {
            return false;
        }
    }
    true
}

/// Whether these are ranks.
fn are_ranks(
    alloc: Global,
    node_count: u32,
    edges: &[(u32, u32)],
    rows: &[Pairs],
    back: &[Pairs],
    ranks: &[u32],
) -> Result<bool, AllocError>
    requires rows { AreRows edges.now rows.now }
    requires back { AreRows (swapped edges.now) back.now }
    ensures { IfOk result (λ all. all ≡ true → AreRanks edges.now node_count ranks.now) }
{
    if ranks.len() != node_count as usize
        || !are_below(node_count, ranks)
        || !no_edge_falls(edges, ranks)
    {
        return Ok(false);
    }
    let roots = find_roots(alloc, node_count, ranks)?;
    if !are_from_roots(alloc, node_count, rows, ranks, roots.as_slice())? {
        return Ok(false);
    }
    if !are_from_roots(alloc, node_count, back, ranks, roots.as_slice())? {
        return Ok(false);
    }
    Ok(true)
}

/// Ranks of the nodes, where those that were found pass the test.
pub fn ranks_of(
    alloc: Global,
    node_count: u32,
    edges: &[(u32, u32)],
) -> Result<Option<Vec<u32>>, AllocError>
    requires within { AreWithin node_count edges.now }
    requires small { length edges.now < 2 ^ 32 }
    ensures { IfOk result (λ found. IfSome found (λ ranks. AreRanks edges.now node_count ranks.items)) }
{
    let rows = rows_of(alloc, node_count, edges)?;
    let turned = swapped_edges(alloc, edges)?;
    let back = rows_of(alloc, node_count, turned.as_slice())?;
    drop(turned);
    let ranks = find_ranks(alloc, node_count, rows.as_slice(), back.as_slice())?;
    if are_ranks(
        alloc,
        node_count,
        edges,
        rows.as_slice(),
        back.as_slice(),
        ranks.as_slice(),
    )? {
        return Ok(Some(ranks));
    }
    Ok(None)
}
