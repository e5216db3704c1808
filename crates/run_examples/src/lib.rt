//! Worked examples, from the command line to whole runs: tables of inputs with the answers to them, worked out by hand
//! from the rules. Whole runs go over a folder in memory, whose calls fail where a table says so, and over real files.
#![tactic(auto)]

mod folder;

pub use folder::folder_of;

#[cfg(test)]
mod tests;
