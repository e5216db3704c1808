//! Worked examples of the mapping between clauses and axioms: tables of inputs with the answers to them, worked out by hand
//! from the rules, for the public calls of the crates that translate.
#![tactic(auto)]

#[cfg(test)]
mod tests;
