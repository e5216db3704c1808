//! What the functional-style text of an axiom tells: all of it but the kind of the entity that a note is about. There is no
//! code here: definitions alone, and the laws that follow from them, each the contract of a function that does nothing.
#![tactic(auto)]

mod laws;

pub use laws::{alike_have_one_text, text_and_kind_tell_axiom, text_tells_axiom, texts_are_those};
