//! Worked examples, from ids to documents: tables of inputs with the answers to them, worked out by hand from the rules,
//! for the public calls of the crates that read and print OBO. Each test goes through one table. How tables are written
//! and gone through is offered to the examples of whole runs, too.
#![tactic(auto)]

mod notation;
mod table;

pub use notation::{bytes_of, is_copied, push};
pub use table::{parts_of, wrong_in};

#[cfg(test)]
mod tests;
