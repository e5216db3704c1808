//! The classes that have a name, by their IRIs.
ghost use Rattle.std.specs.Prelude.{◌≡◌, IfOk};
ghost use Rattle.owl_axioms.specs.Classes as spec;

use crate::ClassExpr;
use crate::vocabulary::{owl_nothing, owl_thing};
use rel_io::{Dup, Iri, NoMemory};
use std::alloc::Global;

/// The class with this IRI: `Thing` and `Nothing` for those of owl:Thing and owl:Nothing.
#[tactic(auto, unfolding(crate::specs::Classes::class_named))]
pub fn class_named(iri: Iri) -> ClassExpr
    ensures { result ≡ spec.class_named iri }
{
    if iri.as_slice() == owl_thing() {
        ClassExpr::Thing
    } else if iri.as_slice() == owl_nothing() {
        ClassExpr::Nothing
    } else {
        ClassExpr::Class(iri)
    }
}

/// The IRI of a class that has a name; none for any other expression.
#[tactic(auto, unfolding(crate::specs::Classes::class_iri))]
pub fn class_iri(alloc: Global, expr: &ClassExpr) -> Result<Option<Iri>, NoMemory>
    ensures { IfOk result (λ iri. iri ≡ spec.class_iri expr.now) }
{
    match expr {
        ClassExpr::Thing => Ok(Some(Iri::from_slice(alloc, owl_thing())?)),
        ClassExpr::Nothing => Ok(Some(Iri::from_slice(alloc, owl_nothing())?)),
        ClassExpr::Class(iri) => Ok(Some(iri.copy(alloc)?)),
        _ => Ok(None),
    }
}
