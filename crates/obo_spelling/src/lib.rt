//! The clauses that say the axioms of an ontology, each in its frame, and whether each axiom has some. The layers above make
//! documents of them.
#![tactic(auto)]

mod clauses;
mod declared;
mod home;
mod ontology;

pub use clauses::{clauses_of, frame_kind};
pub use declared::Declared;
pub use home::{Home, home_of};
pub use ontology::{Spelling, spelled};
