//! Edges by their first end, each with its place in the list of edges.
ghost use Rattle.std.specs.Prelude.{◌≡◌, ◌<◌, ◌^◌, IfOk, IsTrue, length};
ghost use Rattle.edge_detours.specs.Reach.{AreWithin};
ghost use Rattle.edge_detours.specs.inner.Rows.{AreRows, swapped};

use fact_rows::{Pairs, empty_pairs, push_pair_at};
use std::alloc::{AllocError, Global};

/// The edges by their first end, each with its place.
pub fn rows_of(
    alloc: Global,
    node_count: u32,
    edges: &[(u32, u32)],
) -> Result<Vec<Pairs>, AllocError>
    requires within { AreWithin node_count edges.now }
    requires small { length edges.now < 2 ^ 32 }
    ensures long { IfOk result (λ rows. length rows.items ≡ node_count) }
    ensures rows { IfOk result (λ rows. AreRows edges.now rows.items) }
{
    let mut rows = empty_pairs(alloc, node_count)?;
    for (i, (a, c)) in edges.iter().enumerate() {
        push_pair_at(&mut rows, *a, (*c, i as u32))?;
    }
    Ok(rows)
}

/// The edges turned round.
pub fn swapped_edges(alloc: Global, edges: &[(u32, u32)]) -> Result<Vec<(u32, u32)>, AllocError>
    ensures { IfOk result (λ made. made.items ≡ swapped edges.now) }
{
    let mut made = Vec::new(alloc);
    for (a, c) in edges {
        made.push((*c, *a))?;
    }
    Ok(made)
}

/// Whether both ends of each edge are below the count.
pub fn are_within(node_count: u32, edges: &[(u32, u32)]) -> bool
    ensures { IsTrue result → AreWithin node_count edges.now }
{
    for (a, c) in edges {
        if *a >= node_count || *c >= node_count {
            return false;
        }
    }
    true
}
