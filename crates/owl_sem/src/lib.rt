//! What axioms mean: finite interpretations, which elements a class expression has, when an axiom is satisfied, and when
//! some axioms keep others over a scope of names. There is no code here: definitions alone, and the laws that follow from
//! them, each the contract of a function that does nothing. The crates above say by them what a module, a step and a whole
//! run keep.
#![tactic(auto)]

mod examples;
mod keeping;
mod meaning;
mod names;

pub use examples::{bicycle_has_individuals, bicycle_has_members, bicycle_satisfies_axioms};
pub use keeping::{
    adding_entailed_keeps, keeping_all_composes, keeping_composes, keeping_is_reflexive,
    keeping_less, logical_keeps, same_axioms_keep, taking_entailed_keeps,
};
pub use meaning::{axioms_are, fillers_are, numbers_are, thing_and_nothing, two_complements};
pub use names::{members_depend_on_names, models_depend_on_names, satisfaction_depends_on_names};
