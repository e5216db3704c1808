//! The step `relax`: where a class is defined as an intersection, it becomes a subclass of each operand that is a class, or
//! a restriction to a class, where that is not said yet. The layer above calls `relax`; what it adds is exactly what is
//! missing, and follows from what was there.
#![tactic(auto)]

mod adding;
mod implied;
mod laws;
mod unsaid;

pub use adding::{add_all, relax};
pub use laws::{definition_entails, missing_is_entailed, relax_of_relaxes, relaxing_keeps};
