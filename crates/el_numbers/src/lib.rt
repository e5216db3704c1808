//! Saturation of an EL part over numbers: all facts that eleven rules derive from it. A fact says that one numbered
//! expression is below another, or that it has a link by a role to another. `Rule` lists the rules, `Derived` is a
//! finite tree of them. `saturate` gives the table of exactly the derived facts, or says that they number more than a
//! limit; the two exclude each other, for every limit.
//!
//! The layer above numbers the expressions that occur, each once, with Thing as 0 and Nothing as 1; gives each its
//! shape, so that a restriction is a role and a filler by their numbers; gives an intersection its operands; numbers the
//! roles; and writes equivalences as two inclusions and a transitive role as a chain. Since numbers and expressions are
//! one to one, what is derived of the numbers is what is derived of the expressions. The rows of a saturated table are
//! what direct edges are taken from.
#![tactic(auto)]

mod conclude;
mod fact;
mod fault;
mod index;
mod laws;
mod met;
mod part;
mod saturation;
mod storing;
mod table;

pub use fact::Fact;
pub use fault::SaturationFault;
pub use laws::{
    answers_exclude, below_is_transitive, saturated_is_largest, saturated_rows_are_ordered,
};
pub use part::{NOTHING, NumberedPart, Shape, THING};
pub use saturation::saturate;
pub use table::Table;

#[cfg(test)]
mod tests;
