//! What every layer stands on: bytes as texts are kept, lists and boxes that contracts see as what they
//! hold, copies that say when memory ran out, the limits of a run, a counter for contracts, and the outside
//! world as two traits: a folder of files and a sink. The layers above are proved against the meaning of
//! these traits and know no other outside.
#![tactic(auto)]

mod boxed;
mod bytes;
mod dup;
mod folder;
mod iri;
mod items;
mod limits;
mod mem_folder;
mod mem_sink;
mod memory;
mod sink;
mod steps;

pub use boxed::Boxed;
pub use bytes::Bytes;
pub use dup::Dup;
pub use folder::{Folder, Got, Opened, PutFault};
pub use iri::Iri;
pub use items::Items;
pub use limits::Limits;
pub use mem_folder::MemFolder;
pub use mem_sink::MemSink;
pub use memory::NoMemory;
pub use sink::{Sink, SinkFailed};
pub use steps::Steps;
