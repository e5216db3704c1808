//! The redundant edges of a graph: by ranks, and by plain walks where the ranks fail their test.
ghost use Rattle.std.specs.Prelude.{IfOk};
ghost use Rattle.edge_detours.specs.Reach.{AreWithin};
ghost use Rattle.edge_detours.specs.Redundant.{AreRedundant};

use crate::by_ranks::redundant_by_ranks;
use crate::by_walks::redundant_by_walks;
use crate::ranks::ranks_of;
use std::alloc::{AllocError, Global};

/// A flag for each edge, set where it is redundant. Each edge is judged by all of them: what stays does not depend on
/// their order. Lists of 2 ^ 32 edges and more are answered by want of memory.
pub fn redundant_edges(
    alloc: Global,
    node_count: u32,
    edges: &[(u32, u32)],
) -> Result<Vec<bool>, AllocError>
    requires within { AreWithin node_count edges.now }
    ensures { IfOk result (λ flags. AreRedundant edges.now flags.items) }
{
    if edges.len() > u32::MAX as usize {
        return Err(AllocError);
    }
    match ranks_of(alloc, node_count, edges)? {
        Some(ranks) => redundant_by_ranks(alloc, node_count, edges, ranks.as_slice()),
        None => redundant_by_walks(alloc, node_count, edges),
    }
}
