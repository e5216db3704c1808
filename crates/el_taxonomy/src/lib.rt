//! The step `reason`: the direct edges of the order of classes that is derived in the EL part of an ontology are added where
//! no axiom says them; or the step is refused, for a declared class that nothing can be in, or for more derived facts than a
//! limit. The layer above calls `reason`; what it adds is exactly what is missing, and follows from what was there.
#![tactic(auto)]

mod direct;
mod edge;
mod fault;
mod laws;
mod numbering;
mod reasoning;
mod unsatisfiable;

pub use direct::direct_edges;
pub use edge::Edge;
pub use fault::ReasonFault;
pub use laws::{below_is_entailed, inferred_is_entailed, reasoning_keeps};
pub use reasoning::{Reasoned, reason};
pub use unsatisfiable::first_unsatisfiable;
