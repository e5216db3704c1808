//! The clause of a tag that says a note. Each form is spelled by a function of its own.
ghost use Rattle.std.specs.Prelude.{◌≡◌, IfOk, Some, codes};
ghost use Rattle.std.specs.Option.{option_and_then, option_map};
ghost use Rattle.owl_axioms.specs.declared.annotation.NoteValue.TheVariants.{Link, Typed};
ghost use Rattle.obo_clause.specs.declared.clause.Value.TheVariants.{Literal};
ghost use Rattle.obo_notes.specs.Context.{is_text, where_true, writing_in};
ghost use Rattle.obo_notes.specs.Forms as spec;
ghost use Rattle.obo_notes.specs.Notes.{clause_with, qualifiers_of};
ghost use Rattle.obo_notes.specs.inner.Rows.{meant};
ghost use Rattle.obo_notes.specs.inner.Taking.{id_and_text};

use crate::Note;
use crate::datatypes::datatype_word;
use crate::forms::Form;
use crate::keys::text_of_value;
use crate::parts::id_of_value;
use crate::taking::{qualifiers_of, take_scope, take_text, take_type, take_xrefs};
use crate::texts::{is_text, is_word};
use crate::vocabulary::{
    has_dbxref, iao_definition, rdfs_comment, rdfs_label, subset_def, synonym_type_def,
    xsd_boolean, xsd_string,
};
use iri_map::id_of;
use obo_clause::{Clause, Qualifier, Scope, Value, Xref};
use owl_axioms::{NoteValue, Side};
use rel_io::{Bytes, Dup, Iri, Items, NoMemory};
use std::alloc::Global;

/// The clause of a tag with this form that says the note, if there is one.
#[tactic(auto, unfolding(crate::specs::Forms::spelled_as))]
pub fn clause_by(
    alloc: Global,
    space: &Bytes,
    tag: &[u8],
    form: Form,
    note: &Note,
) -> Result<Option<Clause>, NoMemory>
    ensures { IfOk result (λ clause. clause ≡
        option_and_then (clause_with tag.now) (spec.spelled_as (writing_in space.now) (meant form) note.now)) }
{
    match form {
        Form::Text(property) => as_text(alloc, tag, property, note),
        Form::Word(property) => as_word(alloc, tag, property, note),
        Form::Link(property) => as_link(alloc, space, tag, property, note),
        Form::Truth(property) => as_truth(alloc, tag, property, note),
        Form::Definition => as_definition(alloc, tag, note),
        Form::Synonym => as_synonym(alloc, space, tag, note),
        Form::Xref => as_xref(alloc, tag, note),
        Form::Property => as_property(alloc, space, tag, note),
        Form::Subset => as_subset(alloc, space, tag, note),
        Form::SynonymType => as_synonym_type(alloc, space, tag, note),
    }
}

/// The clause with this value, and the annotations for its qualifiers, if each of them is one.
fn clause_with(
    alloc: Global,
    tag: &[u8],
    value: Value,
    rest: &[Side],
) -> Result<Option<Clause>, NoMemory>
    ensures { IfOk result (λ clause. clause ≡ clause_with tag.now (spec.spelled value rest.now)) }
{
    match tag_and_qualifiers(alloc, tag, rest) {
        Ok(Some((tag, qualifiers))) => Ok(Some(Clause {
            tag,
            value,
            qualifiers,
        })),
        Ok(None) => {
            drop(value);
            Ok(None)
        }
        Err(NoMemory) => {
            drop(value);
            Err(NoMemory)
        }
    }
}

/// The tag, and the annotations as qualifiers, if each of them is one.
fn tag_and_qualifiers(
    alloc: Global,
    tag: &[u8],
    rest: &[Side],
) -> Result<Option<(Bytes, Items<Qualifier>)>, NoMemory>
    ensures { IfOk result (λ both. both ≡ option_map (λ qualifiers. (tag.now, qualifiers)) (qualifiers_of rest.now)) }
{
    let Some(qualifiers) = qualifiers_of(alloc, rest)? else {
        return Ok(None);
    };
    let tag = Bytes::from_slice(alloc, tag)?;
    Ok(Some((tag, qualifiers)))
}

/// A text.
fn as_text(
    alloc: Global,
    tag: &[u8],
    property: &[u8],
    note: &Note,
) -> Result<Option<Clause>, NoMemory>
    ensures { IfOk result (λ clause. clause ≡ option_and_then (clause_with tag.now) (spec.as_text property.now note.now)) }
{
    if note.property.as_slice() != property {
        return Ok(None);
    }
    let Some(text) = text_of_value(&note.value) else {
        return Ok(None);
    };
    let text = text.copy(alloc)?;
    clause_with(alloc, tag, Value::Text(text), note.sides.as_slice())
}

/// A word that is kept as it is written.
fn as_word(
    alloc: Global,
    tag: &[u8],
    property: &[u8],
    note: &Note,
) -> Result<Option<Clause>, NoMemory>
    ensures { IfOk result (λ clause. clause ≡ option_and_then (clause_with tag.now) (spec.as_word property.now note.now)) }
{
    if note.property.as_slice() != property {
        return Ok(None);
    }
    match text_of_value(&note.value) {
        Some(text) if is_word(text.as_slice()) => {
            let word = text.copy(alloc)?;
            clause_with(alloc, tag, Value::Id(word), note.sides.as_slice())
        }
        _ => Ok(None),
    }
}

/// A link to an id.
fn as_link(
    alloc: Global,
    space: &Bytes,
    tag: &[u8],
    property: &[u8],
    note: &Note,
) -> Result<Option<Clause>, NoMemory>
    ensures { IfOk result (λ clause. clause ≡
        option_and_then (clause_with tag.now) (spec.as_link (writing_in space.now) property.now note.now)) }
{
    if note.property.as_slice() != property {
        return Ok(None);
    }
    let Some(id) = id_of_value(alloc, space, &note.value)? else {
        return Ok(None);
    };
    clause_with(alloc, tag, Value::Id(id), note.sides.as_slice())
}

/// Whether the value is that of notes of truth.
fn is_truth(value: &NoteValue) -> bool
    ensures { result ≡ spec.is_truth value.now }
{
    match value {
        NoteValue::Typed(text, datatype) => {
            text.as_slice() == b"true".as_slice() && datatype.as_slice() == xsd_boolean()
        }
        _ => false,
    }
}

/// That something is true.
fn as_truth(
    alloc: Global,
    tag: &[u8],
    property: &[u8],
    note: &Note,
) -> Result<Option<Clause>, NoMemory>
    ensures { IfOk result (λ clause. clause ≡ option_and_then (clause_with tag.now) (spec.as_truth property.now note.now)) }
{
    if note.property.as_slice() == property && is_truth(&note.value) {
        clause_with(alloc, tag, Value::Bool(true), note.sides.as_slice())
    } else {
        Ok(None)
    }
}

/// A definition with its dbxrefs.
fn as_definition(alloc: Global, tag: &[u8], note: &Note) -> Result<Option<Clause>, NoMemory>
    ensures { IfOk result (λ clause. clause ≡ option_and_then (clause_with tag.now) (spec.as_definition note.now)) }
{
    if note.property.as_slice() != iao_definition() {
        return Ok(None);
    }
    let Some(text) = text_of_value(&note.value) else {
        return Ok(None);
    };
    let (xrefs, rest) = take_xrefs(alloc, note.sides.as_slice())?;
    let text = text.copy(alloc)?;
    clause_with(alloc, tag, Value::Def { text, xrefs }, rest.as_slice())
}

/// The property of synonyms of a scope.
#[tactic(auto, unfolding(crate::specs::Forms::synonym_property, crate::specs::Vocabulary::obo_in_owl))]
pub fn synonym_property(scope: Scope) -> &'static [u8]
    ensures { result.now ≡ spec.synonym_property scope }
{
    match scope {
        Scope::Exact => b"http://www.geneontology.org/formats/oboInOwl#hasExactSynonym",
        Scope::Broad => b"http://www.geneontology.org/formats/oboInOwl#hasBroadSynonym",
        Scope::Narrow => b"http://www.geneontology.org/formats/oboInOwl#hasNarrowSynonym",
        Scope::Related => b"http://www.geneontology.org/formats/oboInOwl#hasRelatedSynonym",
    }
}

/// The scope of the synonyms of a property.
#[tactic(auto, unfolding(crate::specs::Forms::scope_of_property))]
fn scope_of_property(property: &[u8]) -> Option<Scope>
    ensures { result ≡ spec.scope_of_property property.now }
{
    if synonym_property(Scope::Exact) == property {
        Some(Scope::Exact)
    } else if synonym_property(Scope::Broad) == property {
        Some(Scope::Broad)
    } else if synonym_property(Scope::Narrow) == property {
        Some(Scope::Narrow)
    } else if synonym_property(Scope::Related) == property {
        Some(Scope::Related)
    } else {
        None
    }
}

/// A synonym with its type and its dbxrefs.
fn as_synonym(
    alloc: Global,
    space: &Bytes,
    tag: &[u8],
    note: &Note,
) -> Result<Option<Clause>, NoMemory>
    ensures { IfOk result (λ clause. clause ≡
        option_and_then (clause_with tag.now) (spec.as_synonym (writing_in space.now) note.now)) }
{
    let Some(scope) = scope_of_property(note.property.as_slice()) else {
        return Ok(None);
    };
    let Some(text) = text_of_value(&note.value) else {
        return Ok(None);
    };
    synonym_of(alloc, space, tag, text, scope, note.sides.as_slice())
}

/// The synonym with these annotations.
fn synonym_of(
    alloc: Global,
    space: &Bytes,
    tag: &[u8],
    text: &Bytes,
    scope: Scope,
    sides: &[Side],
) -> Result<Option<Clause>, NoMemory>
    ensures { IfOk result (λ clause. clause ≡
        clause_with tag.now (spec.synonym_parts (writing_in space.now) text.now scope sides.now)) }
{
    let (kind, others) = take_type(alloc, space, sides)?;
    let (xrefs, rest) = take_xrefs(alloc, others.as_slice())?;
    let text = text.copy(alloc)?;
    let value = Value::Synonym {
        text,
        scope,
        kind,
        xrefs,
    };
    clause_with(alloc, tag, value, rest.as_slice())
}

/// A dbxref with its label.
fn as_xref(alloc: Global, tag: &[u8], note: &Note) -> Result<Option<Clause>, NoMemory>
    ensures { IfOk result (λ clause. clause ≡ option_and_then (clause_with tag.now) (spec.as_xref note.now)) }
{
    if note.property.as_slice() != has_dbxref() {
        return Ok(None);
    }
    match text_of_value(&note.value) {
        Some(text) if is_word(text.as_slice()) => {
            let (label, rest) = take_text(alloc, rdfs_label(), note.sides.as_slice())?;
            let id = text.copy(alloc)?;
            let xref = Xref { id, label };
            clause_with(alloc, tag, Value::XrefValue(xref), rest.as_slice())
        }
        _ => Ok(None),
    }
}

/// A plain text as the value of a relation.
fn text_value(alloc: Global, relation: &Bytes, text: &Bytes) -> Result<Option<Value>, NoMemory>
    ensures { IfOk result (λ one. one ≡
        where_true (is_text text.now) (Some (Literal relation.now text.now (codes "xsd:string")))) }
{
    if !is_text(text.as_slice()) {
        return Ok(None);
    }
    let relation = relation.copy(alloc)?;
    let text = text.copy(alloc)?;
    let datatype = Bytes::from_slice(alloc, b"xsd:string")?;
    Ok(Some(Value::Literal {
        relation,
        text,
        datatype,
    }))
}

/// A text of a datatype as the value of a relation.
fn typed_value(
    alloc: Global,
    space: &Bytes,
    relation: &Bytes,
    text: &Bytes,
    datatype: &Iri,
) -> Result<Option<Value>, NoMemory>
    ensures { IfOk result (λ one. one ≡
        spec.as_value_of (writing_in space.now) relation.now (Typed text.now datatype.now)) }
{
    if !is_text(text.as_slice()) || datatype.as_slice() == xsd_string() {
        return Ok(None);
    }
    let Some(datatype) = datatype_word(alloc, space, datatype)? else {
        return Ok(None);
    };
    let relation = relation.copy(alloc)?;
    let text = text.copy(alloc)?;
    Ok(Some(Value::Literal {
        relation,
        text,
        datatype,
    }))
}

/// A link as the value of a relation.
fn link_value(
    alloc: Global,
    space: &Bytes,
    relation: &Bytes,
    iri: &Iri,
) -> Result<Option<Value>, NoMemory>
    ensures { IfOk result (λ one. one ≡ spec.as_value_of (writing_in space.now) relation.now (Link iri.now)) }
{
    let Some(target) = id_of(alloc, iri, space)? else {
        return Ok(None);
    };
    let relation = relation.copy(alloc)?;
    Ok(Some(Value::Link { relation, target }))
}

/// The value of a relation.
fn value_of(
    alloc: Global,
    space: &Bytes,
    relation: &Bytes,
    value: &NoteValue,
) -> Result<Option<Value>, NoMemory>
    ensures { IfOk result (λ one. one ≡ spec.as_value_of (writing_in space.now) relation.now value.now) }
{
    match value {
        NoteValue::Text(text) => text_value(alloc, relation, text),
        NoteValue::Typed(text, datatype) => typed_value(alloc, space, relation, text, datatype),
        NoteValue::Link(iri) => link_value(alloc, space, relation, iri),
    }
}

/// A property of any kind and its value.
fn as_property(
    alloc: Global,
    space: &Bytes,
    tag: &[u8],
    note: &Note,
) -> Result<Option<Clause>, NoMemory>
    ensures { IfOk result (λ clause. clause ≡
        option_and_then (clause_with tag.now) (spec.as_property (writing_in space.now) note.now)) }
{
    let Some(relation) = id_of(alloc, &note.property, space)? else {
        return Ok(None);
    };
    let Some(value) = value_of(alloc, space, &relation, &note.value)? else {
        return Ok(None);
    };
    clause_with(alloc, tag, value, note.sides.as_slice())
}

/// The id and the description of a subset or a synonym type, with the annotations that are left, where there is a
/// description.
fn described(
    alloc: Global,
    space: &Bytes,
    note: &Note,
) -> Result<Option<(Bytes, Bytes, Vec<Side>)>, NoMemory>
    ensures { IfOk result (λ found. option_map (λ one. (one.0, one.1, one.2.items)) found ≡
        id_and_text (writing_in space.now) note.now) }
{
    let Some(id) = id_of_value(alloc, space, &note.value)? else {
        return Ok(None);
    };
    let (text, rest) = take_text(alloc, rdfs_comment(), note.sides.as_slice())?;
    match text {
        Some(text) => Ok(Some((id, text, rest))),
        None => Ok(None),
    }
}

/// A subset with its description.
fn as_subset(
    alloc: Global,
    space: &Bytes,
    tag: &[u8],
    note: &Note,
) -> Result<Option<Clause>, NoMemory>
    ensures { IfOk result (λ clause. clause ≡
        option_and_then (clause_with tag.now) (spec.as_subset (writing_in space.now) note.now)) }
{
    if note.property.as_slice() != subset_def() {
        return Ok(None);
    }
    match described(alloc, space, note)? {
        Some((id, text, rest)) => {
            clause_with(alloc, tag, Value::SubsetDef { id, text }, rest.as_slice())
        }
        None => Ok(None),
    }
}

/// A synonym type with its description and its scope.
fn as_synonym_type(
    alloc: Global,
    space: &Bytes,
    tag: &[u8],
    note: &Note,
) -> Result<Option<Clause>, NoMemory>
    ensures { IfOk result (λ clause. clause ≡
        option_and_then (clause_with tag.now) (spec.as_synonym_type (writing_in space.now) note.now)) }
{
    if note.property.as_slice() != synonym_type_def() {
        return Ok(None);
    }
    match described(alloc, space, note)? {
        Some((id, text, others)) => {
            let (scope, rest) = take_scope(alloc, others.as_slice())?;
            let value = Value::SynonymDef { id, text, scope };
            clause_with(alloc, tag, value, rest.as_slice())
        }
        None => Ok(None),
    }
}
