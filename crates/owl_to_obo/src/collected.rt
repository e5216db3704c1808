//! All that an ontology gives frames of tags that stand once.
ghost use Rattle.std.specs.Prelude.{◌≡◌, ◌++◌, [], IfOk, List, OnOk, codes, if◌then◌else◌, map};
ghost use Rattle.std.specs.List.{filter_map};
ghost use Rattle.std.specs.Option.{option_map, option_to_list};
ghost use Rattle.obo_tags.specs.Tags as tags;
ghost use Rattle.owl_axioms.specs.declared.name.Name.{Name};
ghost use Rattle.obo_notes.specs.Context.{writing_in};
ghost use Rattle.obo_statements.specs.Groups.{group_meant, group_tag};
ghost use Rattle.owl_ontology.specs.Ontology.{entry_of};
ghost use Rattle.obo_mapping.specs.TwoValues as spec;
ghost use Rattle.owl_to_obo.specs.Clashes.{given_meant};
ghost use Rattle.owl_to_obo.specs.inner.Collected as inner;

use crate::given::{Given, all_printed, give, printed};
use obo_clause::Clause;
use obo_frames::Placed;
use obo_spelling::{Declared, clauses_of, home_of};
use obo_statements::{Group, clauses_of_group};
use owl_axioms::{Axiom, Body, Kind, Name};
use owl_ontology::{Ontology, Origin};
use rel_io::{Bytes, NoMemory};
use std::alloc::Global;

/// All that the ontology gives; notes are looked at only where that is asked for.
pub fn all_given(
    alloc: Global,
    space: &Bytes,
    declared: &Declared,
    ontology: &Ontology,
    check: bool,
) -> Result<Vec<Given>, NoMemory>
    ensures { IfOk result (λ all. map given_meant all.items ≡
        inner.all_given (writing_in space.now) declared.now check ontology.now.entries) }
{
    let mut all = Vec::new(alloc);
    for at in 0..ontology.len() {
        push_given(
            alloc,
            space,
            declared,
            ontology.get(at),
            ontology.origin(at),
            check,
            &mut all,
        )?;
    }
    Ok(all)
}

/// Appends what an axiom gives.
fn push_given(
    alloc: Global,
    space: &Bytes,
    declared: &Declared,
    stated: &Axiom,
    origin: Origin,
    check: bool,
    all: &mut Vec<Given>,
) -> Result<(), NoMemory>
    ensures { OnOk result (map given_meant all.new.items ≡ map given_meant all.old.items
        ++ inner.given_by (writing_in space.now) declared.now check (entry_of stated.now origin)) }
{
    push_checked(alloc, space, declared, stated, origin, check, all)?;
    push_group(
        alloc,
        space,
        declared,
        stated,
        origin,
        Group::Intersection,
        all,
    )?;
    push_group(alloc, space, declared, stated, origin, Group::Union, all)?;
    push_kind(alloc, space, stated, origin, all)?;
    Ok(())
}

/// Appends what a note gives, where that is asked for.
fn push_checked(
    alloc: Global,
    space: &Bytes,
    declared: &Declared,
    stated: &Axiom,
    origin: Origin,
    check: bool,
    all: &mut Vec<Given>,
) -> Result<(), NoMemory>
    ensures { OnOk result (map given_meant all.new.items ≡ map given_meant all.old.items
        ++ (if check then spec.notes_given (writing_in space.now) declared.now (entry_of stated.now origin) else [])) }
{
    if check {
        push_notes(alloc, space, declared, stated, origin, all)
    } else {
        Ok(())
    }
}

/// Appends what a note gives, where its tag stands once.
fn push_notes(
    alloc: Global,
    space: &Bytes,
    declared: &Declared,
    stated: &Axiom,
    origin: Origin,
    all: &mut Vec<Given>,
) -> Result<(), NoMemory>
    ensures { OnOk result (map given_meant all.new.items ≡ map given_meant all.old.items
        ++ spec.notes_given (writing_in space.now) declared.now (entry_of stated.now origin)) }
{
    match &stated.body {
        Body::Note(subject, _, _) => match clauses_of(alloc, space, declared, stated)? {
            Some(clauses) => push_single(alloc, space, subject, clauses.as_slice(), origin, all),
            None => Ok(()),
        },
        _ => Ok(()),
    }
}

/// Appends those clauses of a note whose tag stands once.
fn push_single(
    alloc: Global,
    space: &Bytes,
    subject: &Name,
    clauses: &[Placed],
    origin: Origin,
    all: &mut Vec<Given>,
) -> Result<(), NoMemory>
    ensures { (declared : List Name) → OnOk result (map given_meant all.new.items ≡ map given_meant all.old.items
        ++ filter_map (λ one. inner.note_given (writing_in space.now) declared subject.now origin one.clause) clauses.now) }
{
    for one in clauses {
        push_note(alloc, space, subject, &one.clause, origin, all)?;
    }
    Ok(())
}

/// Appends the clause of a note, where its tag stands once.
fn push_note(
    alloc: Global,
    space: &Bytes,
    subject: &Name,
    clause: &Clause,
    origin: Origin,
    all: &mut Vec<Given>,
) -> Result<(), NoMemory>
    ensures { (declared : List Name) → OnOk result (map given_meant all.new.items ≡ map given_meant all.old.items
        ++ option_to_list (inner.note_given (writing_in space.now) declared subject.now origin clause.now)) }
{
    if !is_single(clause.tag.as_slice()) {
        return Ok(());
    }
    let text = printed(alloc, clause)?;
    let one = give(alloc, space, subject, clause.tag.as_slice(), &text, origin)?;
    push_some(all, one)?;
    Ok(())
}

/// Appends one, where there is one.
fn push_some(all: &mut Vec<Given>, one: Option<Given>) -> Result<(), NoMemory>
    ensures { OnOk result (map given_meant all.new.items ≡ map given_meant all.old.items ++ option_to_list (option_map given_meant one)) }
{
    if let Some(one) = one {
        all.push(one)?;
    }
    Ok(())
}

/// Whether a frame has notes of this tag once.
fn is_single(tag: &[u8]) -> bool
    ensures { result ≡ inner.is_single tag.now }
{
    tag == b"name".as_slice()
        || tag == b"namespace".as_slice()
        || tag == b"def".as_slice()
        || tag == b"comment".as_slice()
        || tag == b"created_by".as_slice()
        || tag == b"creation_date".as_slice()
}

/// Appends the group that an axiom is.
fn push_group(
    alloc: Global,
    space: &Bytes,
    declared: &Declared,
    stated: &Axiom,
    origin: Origin,
    group: Group,
    all: &mut Vec<Given>,
) -> Result<(), NoMemory>
    ensures { OnOk result (map given_meant all.new.items ≡ map given_meant all.old.items
        ++ option_to_list (spec.group_given (writing_in space.now) declared.now (entry_of stated.now origin) (group_meant group))) }
{
    let Some(home) = home_of(alloc, space, declared, &stated.body)? else {
        return Ok(());
    };
    match clauses_of_group(alloc, space, &home.entity.iri, group, stated)? {
        Some(clauses) => {
            let text = all_printed(alloc, clauses.as_slice())?;
            push_some(
                all,
                give(alloc, space, &home.entity, tag_of(group), &text, origin)?,
            )
        }
        None => Ok(()),
    }
}

/// The tag of the clauses of a group.
fn tag_of(group: Group) -> &'static [u8]
    ensures { result.now ≡ group_tag (group_meant group) }
{
    match group {
        Group::Intersection => b"intersection_of",
        Group::Union => b"union_of",
    }
}

/// Appends what a Typedef stands for by a declaration: a relation, or an annotation property.
fn push_kind(
    alloc: Global,
    space: &Bytes,
    stated: &Axiom,
    origin: Origin,
    all: &mut Vec<Given>,
) -> Result<(), NoMemory>
    ensures { (declared : List Name) → OnOk result (map given_meant all.new.items ≡ map given_meant all.old.items
        ++ option_to_list (spec.kind_given (writing_in space.now) declared (entry_of stated.now origin))) }
{
    match &stated.body {
        Body::Declaration(name) => match name.kind {
            Kind::Role => push_truth(alloc, space, name, b"false", origin, all),
            Kind::AnnotationProperty => push_truth(alloc, space, name, b"true", origin, all),
            Kind::Class => Ok(()),
            Kind::Individual => Ok(()),
        },
        _ => Ok(()),
    }
}

/// Appends whether an entity is an annotation property.
fn push_truth(
    alloc: Global,
    space: &Bytes,
    name: &Name,
    truth: &[u8],
    origin: Origin,
    all: &mut Vec<Given>,
) -> Result<(), NoMemory>
    ensures { (declared : List Name) → OnOk result (map given_meant all.new.items ≡ map given_meant all.old.items
        ++ option_to_list (spec.given (writing_in space.now) declared name.now tags.is_metadata_tag truth.now origin)) }
{
    let text = Bytes::from_slice(alloc, truth)?;
    push_some(
        all,
        give(alloc, space, name, b"is_metadata_tag", &text, origin)?,
    )
}
