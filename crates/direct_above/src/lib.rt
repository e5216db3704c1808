//! Direct edges of a taxonomy, over numbers: each declared class with the classes directly above it. `rows` has for each
//! number all numbers above it, itself included, as a saturated table has them: a reflexive and transitive relation,
//! without repeats. Not every number is a class: the table also has numbers for other expressions, for Thing and for
//! Nothing, and `classes` tells which of them count. An edge leads from a declared class to another class above it, where
//! the edge is not told already and no class stands strictly between the two. Equal classes are above one another, so
//! each has an edge to the other, and none of them is between.
//!
//! The layer above numbers the classes, says which are declared, makes `told` of the inclusions that its ontology has,
//! and turns the pairs back into classes, in an order of its own.
#![tactic(auto)]

mod candidates;
mod direct;
mod marks;

pub use direct::direct_edges;
