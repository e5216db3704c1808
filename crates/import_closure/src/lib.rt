//! The files of a run: the inputs and what they import, each read once, in the order of a list. The names of imports are found
//! by a catalog. Each file is read to its end and is a document, or the first refusal of the list is named; it is read in
//! pieces, and of its bytes no more than a piece and a line is held. The layer above makes one ontology of the documents.
#![tactic(auto)]

mod catalog;
mod fault;
mod feed;
mod file;
mod files;
mod laws;
mod list;
mod unread;

pub use fault::LoadFault;
pub use file::{FileFault, read_file};
pub use files::{SourceFile, read_files};
pub use laws::each_is_read_once;
pub use list::Asker;
