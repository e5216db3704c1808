//! `obo_text`: the OBO text of an ontology, which reads back as its axioms, or the two values that one frame would have. The
//! layer above writes files by it.
#![tactic(auto)]

mod laws;
mod missing;
mod text;

pub use laws::{document_is_normal, spaced_document_is_normal, texts_read_back};
pub use text::obo_text;
