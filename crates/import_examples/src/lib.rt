//! Worked examples of the files of a run: inputs with what they import, catalogs, and refusals in their order, over a folder
//! in memory, with the answers worked out by hand.
#![tactic(auto)]

#[cfg(test)]
mod tests;
