//! Lists of numbers: one for each number from 0, and one for each name that has one. The layers above keep in them which
//! nodes stand above a node, and which nodes and axioms have a name.
#![tactic(auto)]

mod lists;
mod named;

pub use lists::Lists;
pub use named::NamedLists;
