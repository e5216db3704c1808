//! An ontology: a name, and a list of proper axioms without repeats, each with its least origin.
#![tactic(auto)]

mod laws;
mod ontology;
mod origin;

pub use laws::{
    adding_keeps_the_lesser_origin, adding_many_is_of_sets, adding_many_keeps_the_least_origin,
    sameness_is_equivalence,
};
pub use ontology::Ontology;
pub use origin::Origin;
