//! `home_of`: the frame in which an axiom is stated.
ghost use Rattle.std.specs.Prelude.{◌≡◌, ◌++◌, ◌∷◌, [], IfOk, map};
ghost use Rattle.std.specs.Option.{option_map, option_to_list};
ghost use Rattle.owl_axioms.specs.declared.name.Kind.TheVariants as kinds;
ghost use Rattle.obo_notes.specs.Context.{writing_in};
ghost use Rattle.obo_statements.specs.Anchors.{class_anchor, individual_entity, role_entity};
ghost use Rattle.obo_mapping.specs.Axioms as spec;
ghost use Rattle.obo_spelling.specs.Homes.{home_meant};
ghost use Rattle.obo_spelling.specs.inner.Homes.{homes_in, least_of};

use crate::Declared;
use iri_map::id_of;
use owl_axioms::{Body, ClassExpr, Kind, Name, owl_nothing, owl_thing};
use rel_io::{Bytes, Dup, Iri, NoMemory};
use std::alloc::Global;

/// An entity and the id of its frame.
#[derive(Drop)]
pub struct Home {
    /// The entity.
    pub entity: Name,
    /// The id of its frame.
    pub id: Bytes,
}

/// The frame of an entity, where it is declared and has an id.
pub fn home_at(
    alloc: Global,
    space: &Bytes,
    declared: &Declared,
    entity: Name,
) -> Result<Option<Home>, NoMemory>
    ensures { IfOk result (λ home. option_map home_meant home ≡ spec.home_at (writing_in space.now) declared.now entity) }
{
    if !declared.has(&entity) {
        return Ok(None);
    }
    match frame_id(alloc, space, &entity)? {
        Some(id) => Ok(Some(Home { entity, id })),
        None => Ok(None),
    }
}

/// The id of the frame of an entity.
pub fn frame_id(alloc: Global, space: &Bytes, entity: &Name) -> Result<Option<Bytes>, NoMemory>
    ensures { IfOk result (λ id. id ≡ spec.frame_id (writing_in space.now) entity.now) }
{
    match entity.kind {
        Kind::Class | Kind::Role | Kind::Individual | Kind::AnnotationProperty => {
            id_of(alloc, &entity.iri, space)
        }
    }
}

/// The frame in which an axiom that says this is stated: of the entities of which it speaks first, or of the two where
/// their order says nothing, that of the least id, of those that are declared.
#[tactic(auto, unfolding(obo_statements::specs::Anchors::anchors, text_sets::specs::Sorted::sorted_on))]
pub fn home_of(
    alloc: Global,
    space: &Bytes,
    declared: &Declared,
    body: &Body,
) -> Result<Option<Home>, NoMemory>
    ensures { IfOk result (λ home. option_map home_meant home ≡ spec.home_of (writing_in space.now) declared.now body.now) }
{
    match body {
        Body::Sub(below, _) => Ok(class_home(alloc, space, declared, below)?),
        Body::Equiv(one, other) => class_homes(alloc, space, declared, one, other),
        Body::Disjoint(one, other) => class_homes(alloc, space, declared, one, other),
        Body::SubRole(role, _) => role_home(alloc, space, declared, role),
        Body::Chain(_, _, role) => role_home(alloc, space, declared, role),
        Body::EquivRoles(one, other) => role_homes(alloc, space, declared, one, other),
        Body::DisjointRoles(one, other) => role_homes(alloc, space, declared, one, other),
        Body::Inverse(one, other) => role_homes(alloc, space, declared, one, other),
        Body::Transitive(role) => role_home(alloc, space, declared, role),
        Body::Reflexive(role) => role_home(alloc, space, declared, role),
        Body::Symmetric(role) => role_home(alloc, space, declared, role),
        Body::Asymmetric(role) => role_home(alloc, space, declared, role),
        Body::Functional(role) => role_home(alloc, space, declared, role),
        Body::InverseFunctional(role) => role_home(alloc, space, declared, role),
        Body::Domain(role, _) => role_home(alloc, space, declared, role),
        Body::Range(role, _) => role_home(alloc, space, declared, role),
        Body::ClassAssertion(_, name) => individual_home(alloc, space, declared, name),
        Body::RoleAssertion(_, from, _) => individual_home(alloc, space, declared, from),
        Body::Declaration(name) => named_home(alloc, space, declared, name),
        Body::Note(subject, _, _) => named_home(alloc, space, declared, subject),
        Body::OntologyNote(_, _) => Ok(None),
    }
}

/// The frame of a role.
#[tactic(auto, using(crate::proofs::HomeLemmas::least_single))]
fn role_home(
    alloc: Global,
    space: &Bytes,
    declared: &Declared,
    role: &Iri,
) -> Result<Option<Home>, NoMemory>
    ensures plain { IfOk result (λ home. option_map home_meant home ≡
        spec.home_at (writing_in space.now) declared.now (role_entity role.now)) }
    ensures least { IfOk result (λ home. option_map home_meant home ≡
        least_of (homes_in (writing_in space.now) declared.now (role_entity role.now ∷ []))) }
{
    let kind = Kind::Role;
    let iri = role.copy(alloc)?;
    home_at(alloc, space, declared, Name { kind, iri })
}

/// The frame of an individual.
#[tactic(auto, using(crate::proofs::HomeLemmas::least_single))]
fn individual_home(
    alloc: Global,
    space: &Bytes,
    declared: &Declared,
    name: &Iri,
) -> Result<Option<Home>, NoMemory>
    ensures { IfOk result (λ home. option_map home_meant home ≡
        least_of (homes_in (writing_in space.now) declared.now (individual_entity name.now ∷ []))) }
{
    let kind = Kind::Individual;
    let iri = name.copy(alloc)?;
    home_at(alloc, space, declared, Name { kind, iri })
}

/// The frame of an entity.
#[tactic(auto, using(crate::proofs::HomeLemmas::least_single))]
fn named_home(
    alloc: Global,
    space: &Bytes,
    declared: &Declared,
    entity: &Name,
) -> Result<Option<Home>, NoMemory>
    ensures { IfOk result (λ home. option_map home_meant home ≡
        least_of (homes_in (writing_in space.now) declared.now (entity.now ∷ []))) }
{
    let entity = entity.copy(alloc)?;
    home_at(alloc, space, declared, entity)
}

/// The frame of a class.
fn class_home(
    alloc: Global,
    space: &Bytes,
    declared: &Declared,
    one: &ClassExpr,
) -> Result<Option<Home>, NoMemory>
    ensures { IfOk result (λ home. option_to_list (option_map home_meant home) ≡
        homes_in (writing_in space.now) declared.now (class_anchor one.now)) }
{
    match class_iri(alloc, one)? {
        Some(iri) => {
            let kind = Kind::Class;
            home_at(alloc, space, declared, Name { kind, iri })
        }
        None => Ok(None),
    }
}

/// The IRI of an expression that is a class.
fn class_iri(alloc: Global, one: &ClassExpr) -> Result<Option<Iri>, NoMemory>
    ensures { IfOk result (λ iri. map (spec.name_as kinds.Class) (option_to_list iri) ≡ class_anchor one.now) }
{
    match one {
        ClassExpr::Thing => Ok(Some(Iri::from_slice(alloc, owl_thing())?)),
        ClassExpr::Nothing => Ok(Some(Iri::from_slice(alloc, owl_nothing())?)),
        ClassExpr::Class(iri) => Ok(Some(iri.copy(alloc)?)),
        _ => Ok(None),
    }
}

/// The frame of one of two classes.
fn class_homes(
    alloc: Global,
    space: &Bytes,
    declared: &Declared,
    one: &ClassExpr,
    other: &ClassExpr,
) -> Result<Option<Home>, NoMemory>
    ensures { IfOk result (λ home. option_map home_meant home ≡
        least_of (homes_in (writing_in space.now) declared.now (class_anchor one.now ++ class_anchor other.now))) }
{
    let first = class_home(alloc, space, declared, one)?;
    let second = class_home(alloc, space, declared, other)?;
    Ok(least_home(first, second))
}

/// The frame of one of two roles.
#[tactic(auto, using(crate::proofs::HomeLemmas::both_homes))]
fn role_homes(
    alloc: Global,
    space: &Bytes,
    declared: &Declared,
    one: &Iri,
    other: &Iri,
) -> Result<Option<Home>, NoMemory>
    ensures { IfOk result (λ home. option_map home_meant home ≡
        least_of (homes_in (writing_in space.now) declared.now (role_entity one.now ∷ role_entity other.now ∷ []))) }
{
    let first = role_home(alloc, space, declared, one)?;
    let second = role_home(alloc, space, declared, other)?;
    Ok(least_home(first, second))
}

/// That of the least id.
#[tactic(auto, unfolding(text_sets::specs::Sorted::sorted_on), using(crate::proofs::HomeLemmas::least_two))]
fn least_home(first: Option<Home>, second: Option<Home>) -> Option<Home>
    ensures { option_map home_meant result ≡
        least_of (option_to_list (option_map home_meant first) ++ option_to_list (option_map home_meant second)) }
{
    match first {
        None => second,
        Some(one) => match second {
            None => Some(one),
            Some(other) => {
                if one.id.cmp(&other.id).is_lt() {
                    Some(one)
                } else {
                    Some(other)
                }
            }
        },
    }
}
