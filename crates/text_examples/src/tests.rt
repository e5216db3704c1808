//! One module for each crate whose answers are compared, and two for the ontologies of the tables.
mod axioms;
mod exprs;
mod functional;
mod generated;
mod spellable;
