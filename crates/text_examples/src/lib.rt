//! Worked examples of the texts that are written beside OBO, and of what is generated: ontologies with their functional-style
//! texts, and sizes with their documents and seeds, all worked out by hand from the rules.
#![tactic(auto)]

#[cfg(test)]
mod tests;
