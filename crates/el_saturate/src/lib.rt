//! The table of the facts that are derived in an EL part: exactly the derived facts, over the nodes of a pool, or, where
//! they number more than a limit, the fault that says so. The work is that of saturation over numbers: each expression
//! that occurs and each role has one number, and what is derived of numbers is what is derived of expressions.
#![tactic(auto)]

mod fault;
mod laws;
mod numbered;
mod numbers;
mod roles;
mod saturation;
mod table;

pub use fault::SatFault;
pub use laws::answers_exclude;
pub use saturation::saturate;
pub use table::Table;
