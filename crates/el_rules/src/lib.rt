//! What is derived in an EL part: which axioms are of the part, which expressions occur in it, the rules by which facts
//! are derived over them, and that these facts are true in each finite model of the part. There is no code here:
//! definitions alone, and the laws that follow from them, each the contract of a function that does nothing. The crates
//! above take the part from an ontology and fill the table of its facts; they count by numbers, and the last laws say
//! that what is derived of numbers is what is derived of the expressions that they stand for.
#![tactic(auto)]

mod numbers;
mod truth;

pub use numbers::{derived_has_numbers, numbers_derive_the_same};
pub use truth::{derived_is_true, derived_occurs, el_bodies_say_the_same};
