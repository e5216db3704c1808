//! Which edges of a directed graph have a detour: the transitive reduction of a graph that may have cycles. Nodes are
//! the numbers below a count, and an edge is a pair of them. An edge is redundant where its ends are one node, or where
//! some node stands strictly between them: it is reached from the one end and reaches the other, and neither the other
//! way round. `redundant_edges` flags exactly these edges, each as the whole graph has it; `reach_is_kept` says that
//! without edges that are redundant everything is reached that was.
//!
//! The layer above numbers its nodes and keeps its edges in a list, beside what each edge came from. Two edges with the
//! same ends have the same flag, since the definition speaks of the ends alone; so the layer above may keep some of the
//! redundant edges, as those with notes, and `reach_is_kept` still holds.
#![tactic(auto)]

mod by_ranks;
mod by_walks;
mod components;
mod detours;
mod laws;
mod ranks;
mod redundant;
mod rows;

pub use laws::reach_is_kept;
pub use redundant::redundant_edges;
pub use rows::are_within;

#[cfg(test)]
mod tests;
