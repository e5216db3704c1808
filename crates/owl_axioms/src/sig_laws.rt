//! What the definitions of signatures amount to. Each law is the contract of a function that does nothing.
ghost use Rattle.owl_axioms.specs.SignatureLaws.{AddingIsUnion, NamesAreSigned};

use crate::Axiom;

/// A signature to which names were added has those that it had and those that were added, but for annotation
/// properties, and no other.
pub fn adding_is_union()
    ensures { AddingIsUnion }
{}

/// The names in a proper axiom are classes other than owl:Thing and owl:Nothing, roles and individuals.
pub fn names_are_signed(one: &Axiom)
    ensures { NamesAreSigned one.now }
{}
