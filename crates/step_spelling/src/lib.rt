//! What can be written as a document stays so with each step. The layer above takes its steps by these laws, and so never
//! meets an ontology without a document for want of a form.
#![tactic(auto)]

mod laws;

pub use laws::{
    edges_keep_spelling, extracting_keeps_spelling, reasoning_keeps_spelling,
    reducing_keeps_spelling, relaxing_keeps_spelling, shipping_keeps_spelling,
};
