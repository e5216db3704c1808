//! Class expressions kept once each: equal nodes exactly for equal trees, so that a fact about nodes is a fact about
//! trees. A pool is seen as the list of the trees of its nodes, in the order in which they came.
#![tactic(auto)]

mod cell;
mod intern;
mod laws;
mod part;
mod pool;

pub use cell::{Cell, Node};
pub use laws::{operands_rise, parts_are_there, parts_have_nodes};
pub use part::mark_parts;
pub use pool::Pool;
