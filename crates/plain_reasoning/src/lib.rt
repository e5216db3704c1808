//! The step `reason` as a plain function of an ontology: which expressions occur in its EL part, which facts are derived
//! there, which direct edges are missing, and what the step answers. There is no code here: definitions alone, and the laws
//! by which the answers of the step are those of the function, each the contract of a function that does nothing. The
//! definitions are plain and never run: the step itself finds the same in near-linear time.
#![tactic(auto)]

mod laws;

pub use laws::{edges_of_are_direct, facts_are_derived, reason_of_is_the_answer, view_is_el_part};
