//! `clauses_of`: the clauses that say one axiom, each in its frame.
ghost use Rattle.std.specs.Prelude.{◌≡◌, ◌∷◌, ◌++◌, [], IfOk, map};
ghost use Rattle.std.specs.Option.{option_and_then, option_map};
ghost use Rattle.obo_tags.specs.declared.kind.FrameKind.TheVariants as kinds;
ghost use Rattle.obo_frames.specs.Framed as frames;
ghost use Rattle.obo_frames.specs.Framed.{framed, unlined};
ghost use Rattle.obo_notes.specs.Context.{writing_in};
ghost use Rattle.obo_notes.specs.Forms as forms;
ghost use Rattle.obo_notes.specs.Notes.{spelling};
ghost use Rattle.obo_statements.specs.Groups.{group_meant};
ghost use Rattle.obo_mapping.specs.Axioms as spec;
ghost use Rattle.obo_mapping.specs.Documents.{clauses_for};
ghost use Rattle.obo_spelling.specs.Homes.{home_meant};
ghost use Rattle.obo_spelling.specs.inner.Clauses as inner;

use crate::Declared;
use crate::home::{Home, frame_id, home_at, home_of};
use obo_clause::{Clause, Value};
use obo_frames::Placed;
use obo_notes::{Note, clause_of};
use obo_statements::{Group, clause_of_statement, clauses_of_group};
use obo_tags::FrameKind;
use owl_axioms::{Axiom, Body, Kind, Name, NoteValue, Side};
use rel_io::{Bytes, Dup, Iri, Items, NoMemory};
use std::alloc::Global;

/// The clauses that say an axiom, in an ontology of this name that declares these entities. `None` exactly where it has no
/// form, or no entity in whose frame it may stand is declared. No line is given to them. It takes time in proportion to the
/// axiom, but for the sorts of its parts.
pub fn clauses_of(
    alloc: Global,
    space: &Bytes,
    declared: &Declared,
    stated: &Axiom,
) -> Result<Option<Vec<Placed>>, NoMemory>
    ensures exact { IfOk result (λ found. option_map (λ clauses. map unlined clauses.items) found ≡
        clauses_for (writing_in space.now) declared.now stated.now) }
{
    match &stated.body {
        Body::Declaration(name) => declaring(alloc, space, name, &stated.sides),
        Body::Note(subject, property, value) => {
            let home = home_at(alloc, space, declared, subject.copy(alloc)?)?;
            of_entity(alloc, space, home, property, value, &stated.sides)
        }
        Body::OntologyNote(property, value) => {
            of_ontology(alloc, space, property, value, &stated.sides)
        }
        _ => of_statement(alloc, space, declared, stated),
    }
}

/// A clause in a frame, without a line.
fn placed(alloc: Global, frame: FrameKind, id: &Bytes, clause: Clause) -> Result<Placed, NoMemory>
    ensures { IfOk result (λ one. unlined one ≡ framed frame id.now clause) }
{
    let id = id.copy(alloc)?;
    Ok(Placed {
        frame,
        id,
        line: 0,
        clause,
    })
}

/// One clause in a frame.
fn one(alloc: Global, frame: FrameKind, id: &Bytes, clause: Clause) -> Result<Vec<Placed>, NoMemory>
    ensures { IfOk result (λ clauses. map unlined clauses.items ≡ framed frame id.now clause ∷ []) }
{
    let placed = placed(alloc, frame, id, clause)?;
    let mut clauses = Vec::new(alloc);
    clauses.push(placed)?;
    Ok(clauses)
}

/// The kind of the frame of an entity.
pub fn frame_kind(kind: Kind) -> FrameKind
    ensures { result ≡ spec.frame_kind kind }
{
    match kind {
        Kind::Class => FrameKind::Term,
        Kind::Role => FrameKind::Typedef,
        Kind::Individual => FrameKind::Instance,
        Kind::AnnotationProperty => FrameKind::Typedef,
    }
}

/// The clauses that declare an entity.
fn declaring(
    alloc: Global,
    space: &Bytes,
    name: &Name,
    sides: &Items<Side>,
) -> Result<Option<Vec<Placed>>, NoMemory>
    ensures { IfOk result (λ found. option_map (λ clauses. map unlined clauses.items) found ≡
        inner.declared_by (writing_in space.now) name.now sides.now) }
{
    if !sides.as_slice().is_empty() {
        return Ok(None);
    }
    match frame_id(alloc, space, name)? {
        Some(id) => Ok(Some(declared_with(alloc, name, &id)?)),
        None => Ok(None),
    }
}

/// The clauses that declare an entity by the id of its frame.
fn declared_with(alloc: Global, name: &Name, id: &Bytes) -> Result<Vec<Placed>, NoMemory>
    ensures { IfOk result (λ clauses. map unlined clauses.items ≡ spec.declaring name.now id.now) }
{
    let clause = id_clause(alloc, id)?;
    let clauses = one(alloc, frame_kind(name.kind), id, clause)?;
    match name.kind {
        Kind::Class => Ok(clauses),
        Kind::Role => Ok(clauses),
        Kind::Individual => Ok(clauses),
        Kind::AnnotationProperty => with_metadata(alloc, id, clauses),
    }
}

/// The clauses, and the one by which a Typedef is an annotation property.
fn with_metadata(alloc: Global, id: &Bytes, clauses: Vec<Placed>) -> Result<Vec<Placed>, NoMemory>
    ensures { IfOk result (λ all. map unlined all.items ≡
        map unlined clauses.items ++ framed kinds.Typedef id.now spec.metadata_clause ∷ []) }
{
    let clause = metadata_clause(alloc)?;
    let one = placed(alloc, FrameKind::Typedef, id, clause)?;
    let mut clauses = clauses;
    clauses.push(one)?;
    Ok(clauses)
}

/// The `id` clause that gives a frame its id.
fn id_clause(alloc: Global, id: &Bytes) -> Result<Clause, NoMemory>
    ensures { IfOk result (λ clause. clause ≡ frames.id_clause id.now) }
{
    let tag = Bytes::from_slice(alloc, b"id")?;
    let id = id.copy(alloc)?;
    Ok(Clause {
        tag,
        value: Value::Id(id),
        qualifiers: Items::from_vec(Vec::new(alloc)),
    })
}

/// The clause by which a Typedef is an annotation property.
fn metadata_clause(alloc: Global) -> Result<Clause, NoMemory>
    ensures { IfOk result (λ clause. clause ≡ spec.metadata_clause) }
{
    let tag = Bytes::from_slice(alloc, b"is_metadata_tag")?;
    Ok(Clause {
        tag,
        value: Value::Bool(true),
        qualifiers: Items::from_vec(Vec::new(alloc)),
    })
}

/// The clause of a note of these parts, in a frame of the kind.
fn clause_of_note(
    alloc: Global,
    space: &Bytes,
    kind: FrameKind,
    property: &Iri,
    value: &NoteValue,
    sides: &Items<Side>,
) -> Result<Option<Clause>, NoMemory>
    ensures { IfOk result (λ clause. clause ≡
        spelling (writing_in space.now) kind (forms.note_of property.now value.now sides.now)) }
{
    let property = property.copy(alloc)?;
    let sides = sides.copy(alloc)?;
    let value = value.copy(alloc)?;
    let note = Note {
        property,
        value,
        sides,
    };
    let clause = clause_of(alloc, space, kind, &note);
    drop(note);
    clause
}

/// The clause that says a note about an entity.
fn of_entity(
    alloc: Global,
    space: &Bytes,
    home: Option<Home>,
    property: &Iri,
    value: &NoteValue,
    sides: &Items<Side>,
) -> Result<Option<Vec<Placed>>, NoMemory>
    ensures { IfOk result (λ found. option_map (λ clauses. map unlined clauses.items) found ≡
        inner.note_at (writing_in space.now) (option_map home_meant home) (forms.note_of property.now value.now sides.now)) }
{
    let Some(home) = home else {
        return Ok(None);
    };
    let kind = frame_kind(home.entity.kind);
    match clause_of_note(alloc, space, kind, property, value, sides)? {
        Some(clause) => Ok(Some(at_home(alloc, &home, clause)?)),
        None => Ok(None),
    }
}

/// The clause that says a note about the ontology.
fn of_ontology(
    alloc: Global,
    space: &Bytes,
    property: &Iri,
    value: &NoteValue,
    sides: &Items<Side>,
) -> Result<Option<Vec<Placed>>, NoMemory>
    ensures { IfOk result (λ found. option_map (λ clauses. map unlined clauses.items) found ≡
        inner.header_spelled (writing_in space.now) (forms.note_of property.now value.now sides.now)) }
{
    match clause_of_note(alloc, space, FrameKind::Header, property, value, sides)? {
        Some(clause) => {
            let id = Bytes::from_vec(Vec::new(alloc));
            Ok(Some(one(alloc, FrameKind::Header, &id, clause)?))
        }
        None => Ok(None),
    }
}

/// A clause in the frame of an entity.
fn at_home(alloc: Global, home: &Home, clause: Clause) -> Result<Vec<Placed>, NoMemory>
    ensures { IfOk result (λ clauses. map unlined clauses.items ≡ spec.at_home (home_meant home.now) clause) }
{
    one(alloc, frame_kind(home.entity.kind), &home.id, clause)
}

/// The clauses of an axiom that is no note and no declaration.
fn of_statement(
    alloc: Global,
    space: &Bytes,
    declared: &Declared,
    stated: &Axiom,
) -> Result<Option<Vec<Placed>>, NoMemory>
    ensures { IfOk result (λ found. option_map (λ clauses. map unlined clauses.items) found ≡
        option_and_then (inner.stated_at (writing_in space.now) stated.now) (spec.home_of (writing_in space.now) declared.now stated.now.body)) }
{
    match home_of(alloc, space, declared, &stated.body)? {
        Some(home) => stated_at(alloc, space, &home, stated),
        None => Ok(None),
    }
}

/// The clauses of such an axiom in its frame: the one that states it, or else those of a group.
fn stated_at(
    alloc: Global,
    space: &Bytes,
    home: &Home,
    stated: &Axiom,
) -> Result<Option<Vec<Placed>>, NoMemory>
    ensures { IfOk result (λ found. option_map (λ clauses. map unlined clauses.items) found ≡
        inner.stated_at (writing_in space.now) stated.now (home_meant home.now)) }
{
    let kind = frame_kind(home.entity.kind);
    match clause_of_statement(alloc, space, kind, &home.entity.iri, stated)? {
        Some(clause) => Ok(Some(at_home(alloc, home, clause)?)),
        None => match grouped(alloc, space, home, Group::Intersection, stated)? {
            Some(clauses) => Ok(Some(clauses)),
            None => grouped(alloc, space, home, Group::Union, stated),
        },
    }
}

/// The clauses of a group in the frame of its class.
fn grouped(
    alloc: Global,
    space: &Bytes,
    home: &Home,
    group: Group,
    stated: &Axiom,
) -> Result<Option<Vec<Placed>>, NoMemory>
    ensures { IfOk result (λ found. option_map (λ clauses. map unlined clauses.items) found ≡
        inner.grouped_at (writing_in space.now) stated.now (home_meant home.now) (group_meant group)) }
{
    match clauses_of_group(alloc, space, &home.entity.iri, group, stated)? {
        Some(clauses) => Ok(Some(all_placed(alloc, &home.id, clauses.into_vec())?)),
        None => Ok(None),
    }
}

/// Clauses in the Term with this id.
fn all_placed(alloc: Global, id: &Bytes, clauses: Vec<Clause>) -> Result<Vec<Placed>, NoMemory>
    ensures { IfOk result (λ all. map unlined all.items ≡ map (framed kinds.Term id.now) clauses.items) }
{
    let mut all = Vec::with_capacity(alloc, clauses.len())?;
    for clause in clauses {
        let one = placed(alloc, FrameKind::Term, id, clause)?;
        all.push(one)?;
    }
    Ok(all)
}
