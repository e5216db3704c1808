//! The redundant edges by four walks for each edge: where ranks fail their test.
ghost use Rattle.std.specs.Prelude.{◌≡◌, ℕ, ◌<◌, ◌≤◌, ◌^◌, ◌⊎◌, length, IfOk, OnOk, IsTrue, true};
ghost use Rattle.fact_rows.specs.Marks.{IsMarked};
ghost use Rattle.edge_detours.specs.Reach.{AreWithin};
ghost use Rattle.edge_detours.specs.Redundant.{AreRedundant};
ghost use Rattle.edge_detours.specs.inner.Rows.{AreRows, IsInside, swapped};
ghost use Rattle.edge_detours.specs.inner.Walks.{AreReached, IsApart, HasBetween};

use crate::detours::{push_one, push_unmarked};
use crate::rows::{rows_of, swapped_edges};
use fact_rows::{Pairs, fresh_marks, is_marked, pairs_at};
use std::alloc::{AllocError, Global};

/// Marks by 1 what a node reaches.
fn mark_reached(
    alloc: Global,
    node_count: u32,
    rows: &[Pairs],
    start: u32,
    marks: &mut [u32],
) -> Result<(), AllocError>
    requires long { length marks.old ≡ node_count }
    requires inside { IsInside node_count rows.now }
    requires start { start < node_count }
    requires clear { (x : ℕ) → IsMarked marks.old 1 x → ⊥ }
    ensures long { OnOk result (length marks.new ≡ node_count) }
    ensures reached { OnOk result (AreReached rows.now start marks.new) }
{
    let mut stack = Vec::new(alloc);
    push_one(start, 0, node_count, 1, marks, &mut stack)?;
    while let Some(x) = stack.pop() {
        push_unmarked(pairs_at(rows, x), 0, node_count, 1, marks, &mut stack)?;
    }
    Ok(())
}

/// Marks, 1 for what a node reaches.
fn reached(
    alloc: Global,
    node_count: u32,
    rows: &[Pairs],
    start: u32,
) -> Result<Vec<u32>, AllocError>
    requires inside { IsInside node_count rows.now }
    requires start { start < node_count }
    ensures long { IfOk result (λ marks. length marks.items ≡ node_count) }
    ensures reached { IfOk result (λ marks. AreReached rows.now start marks.items) }
{
    let mut marks = fresh_marks(alloc, node_count, 0)?;
    mark_reached(alloc, node_count, rows, start, marks.as_mut_slice())?;
    Ok(marks)
}

/// Whether a node is strictly between, by what the two ends reach and what reaches them.
fn is_apart(froms: &[u32], tos: &[u32], backs: &[u32], returns: &[u32], b: u32) -> bool
    ensures on { IsTrue result → IsApart froms.now tos.now backs.now returns.now b }
    ensures each { IsApart froms.now tos.now backs.now returns.now b → IsTrue result }
{
    is_marked(froms, 1, b)
        && is_marked(tos, 1, b)
        && !is_marked(backs, 1, b)
        && !is_marked(returns, 1, b)
}

/// Whether some node is strictly between.
fn has_apart(node_count: u32, froms: &[u32], tos: &[u32], backs: &[u32], returns: &[u32]) -> bool
    requires { length froms.now ≤ node_count }
    ensures on { result ≡ true → (b : ℕ) × IsApart froms.now tos.now backs.now returns.now b }
    ensures each { (b : ℕ) → IsApart froms.now tos.now backs.now returns.now b → result ≡ true }
{
    for b in 0..node_count {
        if is_apart(froms, tos, backs, returns, b) {
            return true;
        }
    }
    false
}

/// Whether an edge from a to c is redundant.
fn is_redundant(
    alloc: Global,
    node_count: u32,
    rows: &[Pairs],
    back: &[Pairs],
    a: u32,
    c: u32,
) -> Result<bool, AllocError>
    requires inside { IsInside node_count rows.now }
    requires back { IsInside node_count back.now }
    requires from { a < node_count }
    requires to { c < node_count }
    ensures on { IfOk result (λ found. found ≡ true → (a ≡ c) ⊎ HasBetween rows.now back.now a c) }
    ensures each { IfOk result (λ found. (a ≡ c) ⊎ HasBetween rows.now back.now a c → found ≡ true) }
{
    if a == c {
        return Ok(true);
    }
    let froms = reached(alloc, node_count, rows, a)?;
    let tos = reached(alloc, node_count, back, c)?;
    let backs = reached(alloc, node_count, back, a)?;
    let returns = reached(alloc, node_count, rows, c)?;
    let found = has_apart(
        node_count,
        froms.as_slice(),
        tos.as_slice(),
        backs.as_slice(),
        returns.as_slice(),
    );
    Ok(found)
}

/// The flags of the redundant edges, by rows of the edges both ways.
fn flags_by_walks(
    alloc: Global,
    node_count: u32,
    edges: &[(u32, u32)],
    rows: &[Pairs],
    back: &[Pairs],
) -> Result<Vec<bool>, AllocError>
    requires within { AreWithin node_count edges.now }
    requires rows { AreRows edges.now rows.now }
    requires back { AreRows (swapped edges.now) back.now }
    ensures { IfOk result (λ flags. AreRedundant edges.now flags.items) }
{
    let mut flags = Vec::new(alloc);
    for (a, c) in edges {
        let is_flagged = is_redundant(alloc, node_count, rows, back, *a, *c)?;
        flags.push(is_flagged)?;
    }
    Ok(flags)
}

/// The flags of the redundant edges, by walks.
pub fn redundant_by_walks(
    alloc: Global,
    node_count: u32,
    edges: &[(u32, u32)],
) -> Result<Vec<bool>, AllocError>
    requires within { AreWithin node_count edges.now }
    requires small { length edges.now < 2 ^ 32 }
    ensures { IfOk result (λ flags. AreRedundant edges.now flags.items) }
{
    let rows = rows_of(alloc, node_count, edges)?;
    let turned = swapped_edges(alloc, edges)?;
    let back = rows_of(alloc, node_count, turned.as_slice())?;
    flags_by_walks(alloc, node_count, edges, rows.as_slice(), back.as_slice())
}
