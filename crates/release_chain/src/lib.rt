//! The one top call. `release` takes the words of the command line and the outside, and does all that the program does: it
//! reads the words, reads and merges the inputs, does the steps, writes the outputs, and reports. Its contract says of every
//! ending what was written, and why it came.
//!
//! What a run does is put together of parts (`specs/Part`), and each function here that touches the folder ends as its part
//! does (`specs/Ending`). A step brings a line in `step_part` (`specs/Run`), a function in `steps`, and a line of the report;
//! its own crate brings that what it makes keeps what was there over its scope, and that each axiom has a form in OBO.
#![tactic(auto)]

mod axioms;
mod chain;
mod counting;
mod ended;
mod generated;
mod inference;
mod inputs;
mod modules;
mod output;
mod program;
mod reading;
mod steps;
mod work;

pub use ended::Ended;
pub use program::release;
