//! Modules of an ontology: the least part of its logical axioms that leaves out only what is local for a signature and for
//! the part's own names, and what is shipped with it. The layers above take from it that every finite model of a module
//! extends to one of the axioms that it was taken from.
#![tactic(auto)]

mod examples;
mod front;
mod growing;
mod laws;
mod logic;
mod naming;
mod setting;
mod ships;

pub use examples::chain_bound;
pub use growing::module;
pub use laws::{closed_extends, closed_keeps, module_is_told, shipped_keeps};
pub use logic::{is_logical, logical};
pub use ships::shipped;
