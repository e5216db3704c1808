//! The real outside: files by their paths, and the standard streams of the process. Both meet the traits of `rel_io`, and
//! tell no content. The program hands them to the top call; nothing else knows of them.
#![tactic(auto)]

mod disk;
mod standard;

pub use disk::DiskFolder;
pub use standard::StdSink;
