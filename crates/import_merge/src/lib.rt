//! The ontology of a run's files: what the inputs and the files that they import say together. Each axiom comes with the
//! first file that gives it and its line there; the name of the ontology and the notes about it are those of the first
//! file. Of each file its frames are counted, and the clauses without an axiom are named. The layer above begins each run
//! here.
#![tactic(auto)]

mod frames;
mod joining;
mod laws;
mod loading;
mod merged;

pub use laws::{files_decide, order_is_free};
pub use loading::{load, merge_file};
pub use merged::{FileNote, Merged};
