//! `ofn_text`: the text of an ontology in OWL 2 Functional-Style Syntax. The layer above writes it, and the text goes by the
//! name and the set of axioms alone.
#![tactic(auto)]

mod declared;
mod kind;
mod laws;
mod lines;
mod text;

pub use laws::{lines_are_in_order, texts_go_by_sets};
pub use text::ofn_text;
