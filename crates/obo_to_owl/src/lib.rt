//! The axioms of a document. Each axiom comes with the least of the lines that say it, and each clause without an axiom is
//! reported by its line and tag. The layers above take documents as ontologies by `translate`.
#![tactic(auto)]

mod clauses;
mod flags;
mod groups;
mod misfit;
mod names;
mod parted;
mod rows;
mod said;
mod sets;
mod situation;
mod spaces;
mod spacing;
mod translated;
mod translation;

pub use flags::untranslated;
pub use translated::{Dropped, Translated};
pub use translation::translate;
