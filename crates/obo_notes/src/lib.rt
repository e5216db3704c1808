//! What a clause says about an entity or an ontology in words, and the clause that says it. The layers above translate the
//! notes of documents to annotation assertions by `note_of`, spell those of ontologies by `clause_of`, and use of these two
//! what `laws` says.
#![tactic(auto)]

mod clause;
mod datatypes;
mod forms;
mod keys;
mod laws;
mod note;
mod parts;
mod said;
mod side_text;
mod sorting;
mod spelled;
mod taking;
mod texts;
mod vocabulary;

pub use clause::clause_of;
pub use datatypes::{datatype_iri, datatype_word};
pub use keys::{is_reserved_key, key_of, key_property, qualifier_of, side_of_qualifier};
pub use laws::{
    each_note_has_clause, note_reads_back, spelled_notes_are_in_order, spelled_notes_fit,
};
pub use note::Note;
pub use said::note_of;
pub use sorting::{Printed, sorted};
pub use taking::qualifiers_of;
