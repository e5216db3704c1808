//! The canonical text of a document: one text for each set of clauses in their frames. It is read back as the same clauses,
//! and has the names of frames behind the ids that lead to them.
#![tactic(auto)]

mod clauses;
mod laws;
mod names;
mod rows;
mod text;

pub use laws::{text_is_of_set, text_is_settled, text_reads_back};
pub use text::canonical_text;
