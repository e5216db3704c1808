//! Worked examples of the engines, from shared expressions on: inputs with the answers to them, worked out by hand, for their
//! public calls.
#![tactic(auto)]

#[cfg(test)]
mod tests;
