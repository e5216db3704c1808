//! Locality by tables: what is known of a class expression, and which axioms hold, whatever an ontology says of the names
//! inside a signature, where the names outside are filled in one way. A way is a pair of values, so the tables and their
//! laws stand here once for every kind; the crates above read verdicts and test axioms by them.
#![tactic(auto)]

mod examples;
mod fills;
mod finding;
mod laws;

pub use examples::{local_table, verdict_table};
pub use fills::{ClassFill, RoleFill};
pub use finding::{Finding, RoleFinding};
pub use laws::{
    fills_names, local_depends_on_names, local_holds, tests_stay, verdicts_hold, verdicts_stay,
};
