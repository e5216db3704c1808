//! What a run answers and tells: its faults, each with its cause, its status and its text, and the report. The layer above
//! makes a `Fault` where a run ends early, and an `Entry` for each thing that was done; here stands what the user reads of
//! them, byte for byte.
#![tactic(auto)]

mod copies;
mod entry;
mod fault;
mod fault_text;
mod pieces;
mod report;
mod status;

pub use entry::{Counts, Entry};
pub use fault::Fault;
pub use fault_text::write_fault;
pub use report::report_text;
pub use status::status_of;
