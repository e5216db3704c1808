//! The EL part of an ontology over the nodes of a pool: its axioms, the expressions that occur, each once and with every
//! part of each, the node of each class that occurs, and the number of logical axioms that it leaves out.
#![tactic(auto)]

mod axioms;
mod classes;
mod closure;
mod el_axiom;
mod fragment;
mod part;
mod roots;

pub use el_axiom::ElAxiom;
pub use part::{ElPart, el_part};
