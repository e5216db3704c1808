//! Documents. The lines of a file are read, each in the frame in which it stands; its clauses, each with the id of its
//! frame and the number of its line, are the document. Where a line is faulty, or else a frame has no id or a Term a
//! group of one expression alone, the least such line is named. The layers above speak of documents alone, and of what
//! every document keeps.
#![tactic(auto)]

mod document;
mod fault;
mod feeder;
mod groups;
mod judged;
mod laws;
mod lines;
mod name;
mod placed;
mod read;
mod reading;
mod standing;
mod told;

pub use document::Document;
pub use fault::DocFault;
pub use feeder::DocumentFeeder;
pub use laws::{
    clauses_are_a_set, cutting_does_not_matter, file_is_document_or_fault, file_is_told,
    first_fault_is_least, lines_are_placed, name_is_least,
};
pub use name::ontology_name;
pub use placed::Placed;
pub use read::read_document;
