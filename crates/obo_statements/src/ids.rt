//! The ids of classes.
ghost use Rattle.std.specs.Prelude.{◌≡◌, IfOk};
ghost use Rattle.std.specs.Option.{option_map};
ghost use Rattle.std.specs.Str.{bytes_eq};
ghost use Rattle.rel_io.specs.Texts as texts;
ghost use Rattle.owl_axioms.specs.Proper as proper;
ghost use Rattle.obo_notes.specs.Context.{writing_in};
ghost use Rattle.obo_statements.specs.Classes as spec;

use iri_map::id_of;
use owl_axioms::{ClassExpr, owl_nothing, owl_thing};
use rel_io::{Bytes, Iri, NoMemory};
use std::alloc::Global;

/// Whether the IRI can be printed.
#[tactic(auto, unfolding(rel_io::specs::Texts::is_clean_iri))]
fn is_clean_iri(iri: &[u8]) -> bool
    ensures { result ≡ texts.is_clean_iri iri.now }
{
    iri.iter().all(|byte| *byte > 32 && !(*byte == 34 || *byte == 60 || *byte == 62))
}

/// Whether it is the IRI of a class that has no expression of its own.
#[tactic(auto, unfolding(owl_axioms::specs::Proper::is_class_iri))]
fn is_class_iri(iri: &[u8]) -> bool
    ensures { result ≡ proper.is_class_iri iri.now }
{
    is_clean_iri(iri) && !(iri == owl_thing() || iri == owl_nothing())
}

/// The IRI of a class, where the expression is one.
#[tactic(auto, unfolding(crate::specs::Classes::class_iri))]
pub fn class_iri(one: &ClassExpr) -> Option<&[u8]>
    ensures { option_map (λ iri. iri.now) result ≡ spec.class_iri one.now }
{
    match one {
        ClassExpr::Thing => Some(owl_thing()),
        ClassExpr::Nothing => Some(owl_nothing()),
        ClassExpr::Class(iri) => is_class_iri(iri.as_slice()).then_some(iri.as_slice()),
        _ => None,
    }
}

/// Whether the expression is the class with this IRI.
pub fn is_class(iri: &Iri, one: &ClassExpr) -> bool
    ensures { result ≡ spec.is_class iri.now one.now }
{
    match class_iri(one) {
        Some(own) => iri.as_slice() == own,
        None => false,
    }
}

/// The id of an IRI.
fn id_of_slice(alloc: Global, space: &Bytes, iri: &[u8]) -> Result<Option<Bytes>, NoMemory>
    ensures { IfOk result (λ id. id ≡ (writing_in space.now).id iri.now) }
{
    let iri = Iri::from_slice(alloc, iri)?;
    id_of(alloc, &iri, space)
}

/// The id of a class, where the expression is one and has an id.
pub fn class_id(alloc: Global, space: &Bytes, one: &ClassExpr) -> Result<Option<Bytes>, NoMemory>
    ensures { IfOk result (λ id. id ≡ spec.class_id (writing_in space.now) one.now) }
{
    match class_iri(one) {
        Some(iri) => id_of_slice(alloc, space, iri),
        None => Ok(None),
    }
}
