//! `note_of`: what a clause says in words. Each form of a value is read by a function of its own.
ghost use Rattle.std.specs.Prelude.{◌≡◌, ◌∷◌, ◌++◌, [], IfOk, OnOk, Some, map};
ghost use Rattle.std.specs.Option.{option_to_list};
ghost use Rattle.owl_axioms.specs.Text.{side_text};
ghost use Rattle.owl_axioms.specs.Vocabulary.{rdfs_label};
ghost use Rattle.owl_axioms.specs.declared.annotation.NoteValue.TheVariants.{Link, Text};
ghost use Rattle.text_sets.specs.Sets.{AreTold};
ghost use Rattle.obo_notes.specs.Context.{Reading, datatype_iri, reading_in};
ghost use Rattle.obo_notes.specs.Forms as spec;
ghost use Rattle.obo_notes.specs.Forms.Form.{DefinitionForm, LinkForm, SubsetForm, SynonymForm, TextForm, TruthForm, TypeForm, ValueForm, WordForm, XrefForm};
ghost use Rattle.obo_notes.specs.Keys.{side_of_qualifier, text_side};
ghost use Rattle.obo_notes.specs.Notes.{meaning, sorted_sides, with_qualifiers};
ghost use Rattle.obo_notes.specs.Parts.{side_of_scope, side_of_type, side_of_xref};
ghost use Rattle.obo_notes.specs.Vocabulary.{rdfs_comment};
ghost use Rattle.obo_notes.specs.inner.Rows.{meant};

use crate::Note;
use crate::datatypes::datatype_iri;
use crate::forms::{Form, form_of};
use crate::keys::{side_of_qualifier, text_side};
use crate::parts::{side_of_scope, side_of_type, side_of_xref};
use crate::sorting::sorted;
use crate::spelled::synonym_property;
use crate::vocabulary::{
    has_dbxref, iao_definition, rdfs_comment, rdfs_label, subset_def, synonym_type_def,
    xsd_boolean, xsd_string,
};
use iri_map::iri_of;
use obo_clause::{Clause, Qualifier, Scope, Value, Xref};
use owl_axioms::{NoteValue, Side};
use rel_io::{Bytes, Dup, Iri, Items, NoMemory};
use std::alloc::Global;

/// What a clause says in words, in an ontology of this name: a property, a value, and annotations in the order of their
/// texts, each once. `None` exactly where the clause says no note, by its tag or by its value. It takes time in proportion
/// to the clause, but for the sort.
#[tactic(auto, unfolding(crate::specs::Notes::meaning))]
pub fn note_of(alloc: Global, space: &Bytes, clause: &Clause) -> Result<Option<Note>, NoMemory>
    ensures exact { IfOk result (λ note. note ≡ meaning (reading_in space.now) clause.now) }
{
    let Some(form) = form_of(clause.tag.as_slice()) else {
        return Ok(None);
    };
    let Some(note) = said(alloc, space, form, &clause.value)? else {
        return Ok(None);
    };
    let note = qualified(alloc, note, clause.qualifiers.as_slice())?;
    Ok(Some(note))
}

/// The note with the qualifiers of its clause among its annotations.
fn qualified(alloc: Global, note: Note, qualifiers: &[Qualifier]) -> Result<Note, NoMemory>
    requires { AreTold side_text (note.sides ++ map side_of_qualifier qualifiers.now) }
    ensures { IfOk result (λ one. one ≡ with_qualifiers qualifiers.now note) }
{
    let Note {
        property,
        value,
        sides,
    } = note;
    let sides = all_sides(alloc, sides, qualifiers)?;
    Ok(Note {
        property,
        value,
        sides,
    })
}

/// The annotations and the qualifiers, in the order of their texts.
fn all_sides(
    alloc: Global,
    sides: Items<Side>,
    qualifiers: &[Qualifier],
) -> Result<Items<Side>, NoMemory>
    requires { AreTold side_text (sides ++ map side_of_qualifier qualifiers.now) }
    ensures { IfOk result (λ all. all ≡ sorted_sides (sides ++ map side_of_qualifier qualifiers.now)) }
{
    let mut all = sides.into_vec();
    push_qualifiers(alloc, &mut all, qualifiers)?;
    sorted(alloc, all)
}

/// Appends qualifiers as annotations.
fn push_qualifiers(
    alloc: Global,
    sides: &mut Vec<Side>,
    qualifiers: &[Qualifier],
) -> Result<(), NoMemory>
    ensures { OnOk result (sides.new.items ≡ sides.old.items ++ map side_of_qualifier qualifiers.now) }
{
    for qualifier in qualifiers {
        let side = side_of_qualifier(alloc, qualifier)?;
        sides.push(side)?;
    }
    Ok(())
}

/// What a value says in a clause of a form.
fn said(alloc: Global, space: &Bytes, form: Form, value: &Value) -> Result<Option<Note>, NoMemory>
    ensures { IfOk result (λ note. note ≡ spec.said (reading_in space.now) (meant form) value.now) }
{
    match form {
        Form::Text(property) => text_said(alloc, property, value),
        Form::Word(property) => word_said(alloc, property, value),
        Form::Link(property) => link_said(alloc, space, property, value),
        Form::Truth(property) => truth_said(alloc, property, value),
        Form::Definition => definition_said(alloc, value),
        Form::Synonym => synonym_said(alloc, space, value),
        Form::Xref => xref_said(alloc, value),
        Form::Property => property_said(alloc, space, value),
        Form::Subset => subset_said(alloc, space, value),
        Form::SynonymType => synonym_type_said(alloc, space, value),
    }
}

/// The note without annotations.
fn bare_note(alloc: Global, property: Iri, value: NoteValue) -> Note
    ensures { result ≡ spec.note_of property value [] }
{
    Note {
        property,
        value,
        sides: Items::from_vec(Vec::new(alloc)),
    }
}

/// The note that a text is.
fn text_note(alloc: Global, property: &[u8], text: &Bytes) -> Result<Note, NoMemory>
    ensures { IfOk result (λ note. note ≡ spec.note_of property.now (Text text.now) []) }
{
    let property = Iri::from_slice(alloc, property)?;
    let text = text.copy(alloc)?;
    Ok(bare_note(alloc, property, NoteValue::Text(text)))
}

/// A text.
#[tactic(auto, unfolding(crate::specs::Forms::said))]
fn text_said(alloc: Global, property: &[u8], value: &Value) -> Result<Option<Note>, NoMemory>
    ensures { (reading : Reading) → IfOk result (λ note. note ≡ spec.said reading (TextForm property.now) value.now) }
{
    match value {
        Value::Text(text) => Ok(Some(text_note(alloc, property, text)?)),
        _ => Ok(None),
    }
}

/// A word that is kept as it is written.
#[tactic(auto, unfolding(crate::specs::Forms::said))]
fn word_said(alloc: Global, property: &[u8], value: &Value) -> Result<Option<Note>, NoMemory>
    ensures { (reading : Reading) → IfOk result (λ note. note ≡ spec.said reading (WordForm property.now) value.now) }
{
    match value {
        Value::Id(word) => Ok(Some(text_note(alloc, property, word)?)),
        _ => Ok(None),
    }
}

/// The note that a link to an id is.
fn link_note(alloc: Global, space: &Bytes, property: &[u8], id: &Bytes) -> Result<Note, NoMemory>
    ensures { IfOk result (λ note. note ≡ spec.note_of property.now (Link ((reading_in space.now).iri id.now)) []) }
{
    let property = Iri::from_slice(alloc, property)?;
    let iri = iri_of(alloc, id, space)?;
    Ok(bare_note(alloc, property, NoteValue::Link(iri)))
}

/// A link to an id.
#[tactic(auto, unfolding(crate::specs::Forms::said))]
fn link_said(
    alloc: Global,
    space: &Bytes,
    property: &[u8],
    value: &Value,
) -> Result<Option<Note>, NoMemory>
    ensures { IfOk result (λ note. note ≡ spec.said (reading_in space.now) (LinkForm property.now) value.now) }
{
    match value {
        Value::Id(id) => Ok(Some(link_note(alloc, space, property, id)?)),
        _ => Ok(None),
    }
}

/// The note that something is true.
fn true_note(alloc: Global, property: &[u8]) -> Result<Note, NoMemory>
    ensures { IfOk result (λ note. note ≡ spec.note_of property.now spec.is_true_value []) }
{
    let property = Iri::from_slice(alloc, property)?;
    let text = Bytes::from_slice(alloc, b"true")?;
    let datatype = Iri::from_slice(alloc, xsd_boolean())?;
    Ok(bare_note(alloc, property, NoteValue::Typed(text, datatype)))
}

/// That something is true.
#[tactic(auto, unfolding(crate::specs::Forms::said))]
fn truth_said(alloc: Global, property: &[u8], value: &Value) -> Result<Option<Note>, NoMemory>
    ensures { (reading : Reading) → IfOk result (λ note. note ≡ spec.said reading (TruthForm property.now) value.now) }
{
    match value {
        Value::Bool(true) => Ok(Some(true_note(alloc, property)?)),
        _ => Ok(None),
    }
}

/// Appends the entries of an xref list as annotations.
fn push_xrefs(alloc: Global, sides: &mut Vec<Side>, xrefs: &[Xref]) -> Result<(), NoMemory>
    ensures { OnOk result (sides.new.items ≡ sides.old.items ++ map side_of_xref xrefs.now) }
{
    for xref in xrefs {
        let side = side_of_xref(alloc, xref)?;
        sides.push(side)?;
    }
    Ok(())
}

/// The note that a text with these annotations is.
fn sided_text(
    alloc: Global,
    property: &[u8],
    text: &Bytes,
    sides: Vec<Side>,
) -> Result<Note, NoMemory>
    ensures { IfOk result (λ note. note ≡ spec.note_of property.now (Text text.now) sides.items) }
{
    let property = Iri::from_slice(alloc, property)?;
    let text = text.copy(alloc)?;
    Ok(Note {
        property,
        value: NoteValue::Text(text),
        sides: Items::from_vec(sides),
    })
}

/// A definition with its dbxrefs.
#[tactic(auto, unfolding(crate::specs::Forms::said))]
fn definition_said(alloc: Global, value: &Value) -> Result<Option<Note>, NoMemory>
    ensures { (reading : Reading) → IfOk result (λ note. note ≡ spec.said reading DefinitionForm value.now) }
{
    match value {
        Value::Def { text, xrefs } => {
            let mut sides = Vec::new(alloc);
            push_xrefs(alloc, &mut sides, xrefs.as_slice())?;
            Ok(Some(sided_text(alloc, iao_definition(), text, sides)?))
        }
        _ => Ok(None),
    }
}

/// The type of a synonym and its dbxrefs, as annotations.
fn synonym_sides(
    alloc: Global,
    space: &Bytes,
    kind: &Option<Bytes>,
    xrefs: &[Xref],
) -> Result<Vec<Side>, NoMemory>
    ensures { IfOk result (λ sides. sides.items ≡
        map (side_of_type (reading_in space.now)) (option_to_list kind.now) ++ map side_of_xref xrefs.now) }
{
    let mut sides = Vec::new(alloc);
    if let Some(kind) = kind {
        let side = side_of_type(alloc, space, kind)?;
        sides.push(side)?;
    }
    push_xrefs(alloc, &mut sides, xrefs)?;
    Ok(sides)
}

/// A synonym with its type and its dbxrefs.
#[tactic(auto, unfolding(crate::specs::Forms::said))]
fn synonym_said(alloc: Global, space: &Bytes, value: &Value) -> Result<Option<Note>, NoMemory>
    ensures { IfOk result (λ note. note ≡ spec.said (reading_in space.now) SynonymForm value.now) }
{
    match value {
        Value::Synonym {
            text,
            scope,
            kind,
            xrefs,
        } => {
            let sides = synonym_sides(alloc, space, kind, xrefs.as_slice())?;
            Ok(Some(sided_text(alloc, synonym_property(*scope), text, sides)?))
        }
        _ => Ok(None),
    }
}

/// The label of a dbxref as an annotation, where it has one.
fn label_sides(alloc: Global, label: &Option<Bytes>) -> Result<Vec<Side>, NoMemory>
    ensures { IfOk result (λ sides. sides.items ≡ map (text_side rdfs_label) (option_to_list label.now)) }
{
    let mut sides = Vec::new(alloc);
    if let Some(label) = label {
        let property = Iri::from_slice(alloc, rdfs_label())?;
        let side = text_side(alloc, property, label)?;
        sides.push(side)?;
    }
    Ok(sides)
}

/// A dbxref with its label.
#[tactic(auto, unfolding(crate::specs::Forms::said))]
fn xref_said(alloc: Global, value: &Value) -> Result<Option<Note>, NoMemory>
    ensures { (reading : Reading) → IfOk result (λ note. note ≡ spec.said reading XrefForm value.now) }
{
    match value {
        Value::XrefValue(xref) => {
            let sides = label_sides(alloc, &xref.label)?;
            Ok(Some(sided_text(alloc, has_dbxref(), &xref.id, sides)?))
        }
        _ => Ok(None),
    }
}

/// A text of a datatype.
fn literal(
    alloc: Global,
    space: &Bytes,
    text: &Bytes,
    datatype: &Bytes,
) -> Result<NoteValue, NoMemory>
    ensures { IfOk result
        (λ value. value ≡ spec.literal text.now (datatype_iri (reading_in space.now) datatype.now)) }
{
    let datatype = datatype_iri(alloc, space, datatype)?;
    let text = text.copy(alloc)?;
    if datatype.as_slice() == xsd_string() {
        Ok(NoteValue::Text(text))
    } else {
        Ok(NoteValue::Typed(text, datatype))
    }
}

/// A property of any kind and its value.
#[tactic(auto, unfolding(crate::specs::Forms::said))]
fn property_said(alloc: Global, space: &Bytes, value: &Value) -> Result<Option<Note>, NoMemory>
    ensures { IfOk result (λ note. note ≡ spec.said (reading_in space.now) ValueForm value.now) }
{
    match value {
        Value::Literal {
            relation,
            text,
            datatype,
        } => {
            let property = iri_of(alloc, relation, space)?;
            let value = literal(alloc, space, text, datatype)?;
            Ok(Some(bare_note(alloc, property, value)))
        }
        Value::Link { relation, target } => {
            let property = iri_of(alloc, relation, space)?;
            let iri = iri_of(alloc, target, space)?;
            Ok(Some(bare_note(alloc, property, NoteValue::Link(iri))))
        }
        _ => Ok(None),
    }
}

/// A description and a scope as annotations.
fn described(alloc: Global, text: &Bytes, scope: Option<Scope>) -> Result<Vec<Side>, NoMemory>
    ensures { IfOk result (λ sides. sides.items ≡
        text_side rdfs_comment text.now ∷ map side_of_scope (option_to_list scope)) }
{
    let property = Iri::from_slice(alloc, rdfs_comment())?;
    let side = text_side(alloc, property, text)?;
    let mut sides = Vec::new(alloc);
    sides.push(side)?;
    if let Some(scope) = scope {
        let side = side_of_scope(alloc, scope)?;
        sides.push(side)?;
    }
    Ok(sides)
}

/// The note that a link with these annotations is.
fn sided_link(
    alloc: Global,
    space: &Bytes,
    property: &[u8],
    id: &Bytes,
    sides: Vec<Side>,
) -> Result<Note, NoMemory>
    ensures { IfOk result (λ note. note ≡
        spec.note_of property.now (Link ((reading_in space.now).iri id.now)) sides.items) }
{
    let property = Iri::from_slice(alloc, property)?;
    let iri = iri_of(alloc, id, space)?;
    Ok(Note {
        property,
        value: NoteValue::Link(iri),
        sides: Items::from_vec(sides),
    })
}

/// A subset with its description.
#[tactic(auto, unfolding(crate::specs::Forms::said))]
fn subset_said(alloc: Global, space: &Bytes, value: &Value) -> Result<Option<Note>, NoMemory>
    ensures { IfOk result (λ note. note ≡ spec.said (reading_in space.now) SubsetForm value.now) }
{
    match value {
        Value::SubsetDef { id, text } => {
            let sides = described(alloc, text, None)?;
            Ok(Some(sided_link(alloc, space, subset_def(), id, sides)?))
        }
        _ => Ok(None),
    }
}

/// A synonym type with its description and its scope.
#[tactic(auto, unfolding(crate::specs::Forms::said))]
fn synonym_type_said(alloc: Global, space: &Bytes, value: &Value) -> Result<Option<Note>, NoMemory>
    ensures { IfOk result (λ note. note ≡ spec.said (reading_in space.now) TypeForm value.now) }
{
    match value {
        Value::SynonymDef { id, text, scope } => {
            let sides = described(alloc, text, *scope)?;
            Ok(Some(sided_link(alloc, space, synonym_type_def(), id, sides)?))
        }
        _ => Ok(None),
    }
}
