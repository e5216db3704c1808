//! Worked examples of inference in EL: small ontologies with all that is derived in them, worked out by hand.
#![tactic(auto)]

#[cfg(test)]
mod tests;
