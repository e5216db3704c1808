//! Which axioms a document says, and the document that says the axioms of an ontology: definitions and the law that what
//! is written of an ontology says it again. The layers above translate documents, and write ontologies, by these.
#![tactic(auto)]

mod laws;

pub use laws::axioms_read_back;
