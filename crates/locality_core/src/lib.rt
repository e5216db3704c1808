//! Verdicts on class expressions and the test of axioms, for every kind of locality and every way in which expressions are
//! stored. The layer above takes from it that a test that is passed holds in each fill, that it is passed with fewer names
//! too, and that each test is counted once.
#![tactic(auto)]

mod axioms;
mod boxes;
mod cached;
mod forest;
mod index;
mod kinds;
mod plain;
mod pooled;
mod renewal;
mod rows;
mod trees;
mod verdicts;

pub use axioms::is_local;
pub use boxes::Boxes;
pub use cached::is_local_cached;
pub use forest::{Forest, Look};
pub use kinds::Locality;
pub use locality_tables::{ClassFill, Finding, RoleFill};
pub use plain::{Plain, pool_axiom};
pub use trees::verdict;
pub use verdicts::Verdicts;
