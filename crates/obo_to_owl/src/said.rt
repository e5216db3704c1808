//! What a clause says by itself.
ghost use Rattle.std.specs.Prelude.{◌≡◌, IfOk};
ghost use Rattle.std.specs.Option.{option_map};
ghost use Rattle.obo_frames.specs.Framed.{unlined};
ghost use Rattle.obo_mapping.specs.Axioms as spec;
ghost use Rattle.obo_notes.specs.Context.{reading_in, where_true};
ghost use Rattle.obo_notes.specs.Notes.{meaning};
ghost use Rattle.obo_statements.specs.Statements.{statement_meaning};
ghost use Rattle.obo_to_owl.specs.inner.Saying.{declaration, kind_of, read_in};

use obo_clause::Clause;
use obo_frames::Placed;
use obo_notes::{Note, note_of};
use obo_statements::statement_of;
use obo_tags::FrameKind;
use owl_axioms::{Axiom, Body, Kind, Name};
use rel_io::{Bytes, Dup, Iri, Items, NoMemory};
use std::alloc::Global;

/// The kind of the entity of a frame; the header is of none.
pub fn kind_of(frame: FrameKind, is_metadata: bool) -> Option<Kind>
    ensures { result ≡ kind_of frame is_metadata }
{
    match frame {
        FrameKind::Header => None,
        FrameKind::Term => Some(Kind::Class),
        FrameKind::Instance => Some(Kind::Individual),
        FrameKind::Typedef if is_metadata => Some(Kind::AnnotationProperty),
        FrameKind::Typedef => Some(Kind::Role),
    }
}

/// An entity.
pub fn entity(alloc: Global, kind: Kind, iri: &Iri) -> Result<Name, NoMemory>
    ensures { IfOk result (λ name. name ≡ spec.name_as kind iri.now) }
{
    let iri = iri.copy(alloc)?;
    Ok(Name { kind, iri })
}

/// What a clause says by itself, where its frame is that of an entity of this kind with this IRI, or the header.
pub fn axiom_said(
    alloc: Global,
    space: &Bytes,
    kind: Option<Kind>,
    iri: &Iri,
    one: &Placed,
) -> Result<Option<Axiom>, NoMemory>
    ensures { IfOk result (λ said. said ≡
        spec.said_at (read_in space.now) (unlined one.now) (option_map (λ k. spec.name_as k iri.now) kind)) }
{
    match kind {
        Some(kind) => said_of(alloc, space, one.frame, kind, iri, &one.clause),
        None => ontology_said(alloc, space, &one.clause),
    }
}

/// What a clause of the header says.
fn ontology_said(alloc: Global, space: &Bytes, clause: &Clause) -> Result<Option<Axiom>, NoMemory>
    ensures { IfOk result (λ said. said ≡
        option_map spec.ontology_axiom (meaning (reading_in space.now) clause.now)) }
{
    match note_of(alloc, space, clause)? {
        Some(note) => Ok(Some(ontology_axiom(note))),
        None => Ok(None),
    }
}

/// A note as an axiom about the ontology.
fn ontology_axiom(note: Note) -> Axiom
    ensures { result ≡ spec.ontology_axiom note }
{
    let Note {
        property,
        value,
        sides,
    } = note;
    Axiom {
        body: Body::OntologyNote(property, value),
        sides,
    }
}

/// A note as an axiom about an entity.
fn note_axiom(name: Name, note: Note) -> Axiom
    ensures { result ≡ spec.note_axiom name note }
{
    let Note {
        property,
        value,
        sides,
    } = note;
    Axiom {
        body: Body::Note(name, property, value),
        sides,
    }
}

/// What a clause says of the entity of its frame.
fn said_of(
    alloc: Global,
    space: &Bytes,
    frame: FrameKind,
    kind: Kind,
    iri: &Iri,
    clause: &Clause,
) -> Result<Option<Axiom>, NoMemory>
    ensures { IfOk result (λ said. said ≡
        spec.said_of (read_in space.now) frame (spec.name_as kind iri.now) clause.now) }
{
    if clause.tag.as_slice() == b"id".as_slice() {
        let name = entity(alloc, kind, iri)?;
        return Ok(Some(declaration(alloc, name)));
    }
    match noted(alloc, space, kind, iri, clause)? {
        Some(said) => Ok(Some(said)),
        None => stated(alloc, space, frame, kind, iri, clause),
    }
}

/// That the entity is there.
fn declaration(alloc: Global, name: Name) -> Axiom
    ensures { result ≡ declaration name }
{
    Axiom {
        body: Body::Declaration(name),
        sides: Items::from_vec(Vec::new(alloc)),
    }
}

/// The note that a clause says of the entity.
fn noted(
    alloc: Global,
    space: &Bytes,
    kind: Kind,
    iri: &Iri,
    clause: &Clause,
) -> Result<Option<Axiom>, NoMemory>
    ensures { IfOk result (λ said. said ≡
        option_map (spec.note_axiom (spec.name_as kind iri.now)) (meaning (reading_in space.now) clause.now)) }
{
    match note_of(alloc, space, clause)? {
        Some(note) => {
            let name = entity(alloc, kind, iri)?;
            Ok(Some(note_axiom(name, note)))
        }
        None => Ok(None),
    }
}

/// What a clause states of the entity, which is no annotation property.
fn stated(
    alloc: Global,
    space: &Bytes,
    frame: FrameKind,
    kind: Kind,
    iri: &Iri,
    clause: &Clause,
) -> Result<Option<Axiom>, NoMemory>
    ensures { IfOk result (λ said. said ≡
        where_true (spec.is_logical kind) (statement_meaning (reading_in space.now) frame iri.now clause.now)) }
{
    match kind {
        Kind::AnnotationProperty => Ok(None),
        _ => statement_of(alloc, space, frame, iri, clause),
    }
}
