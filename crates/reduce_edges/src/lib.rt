//! The step `reduce`: an inclusion between two classes goes where a class stands strictly between them, along the inclusions
//! as they are before the step; so does one of a class in itself. The layer above calls `reduce`; afterwards each class
//! reaches the same classes, and what is gone follows from what stays.
#![tactic(auto)]

mod graph;
mod laws;
mod reducing;
mod staying;

pub use laws::{goes_is_goes, reach_entails, reaches_is_reach, reduce_of_reduces};
pub use reducing::reduce;
