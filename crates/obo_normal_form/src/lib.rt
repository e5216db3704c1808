//! The normal form of documents, as laws: what it says, that it is normal, and what it depends on. The layers above make
//! the canonical text of a document and of an ontology by it.
#![tactic(auto)]

mod laws;

pub use laws::{
    norm_is_in_order, norm_is_of_axioms, norm_is_sound, norm_once, norm_says, owl_is_spaced,
    owl_is_spellable,
};
