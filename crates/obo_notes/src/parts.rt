//! Annotations that a clause has as parts of its value, and back.
ghost use Rattle.std.specs.Prelude.{◌≡◌, IfOk};
ghost use Rattle.std.specs.Option.{option_and_then, option_map};
ghost use Rattle.obo_clause.specs.Spelling.{scope_word};
ghost use Rattle.obo_notes.specs.Context.{reading_in, writing_in};
ghost use Rattle.obo_notes.specs.Keys.{text_of_value};
ghost use Rattle.obo_notes.specs.Parts as spec;

use crate::keys::{plain_text, text_of_value, text_side};
use crate::texts::{is_label, is_word};
use crate::vocabulary::{has_dbxref, has_scope, has_synonym_type};
use iri_map::{id_of, iri_of};
use obo_clause::{Scope, Xref};
use owl_axioms::{NoteValue, Side};
use rel_io::{Bytes, Dup, Iri, NoMemory};
use std::alloc::Global;

/// An entry of an xref list as an annotation.
pub fn side_of_xref(alloc: Global, xref: &Xref) -> Result<Side, NoMemory>
    ensures { IfOk result (λ side. side ≡ spec.side_of_xref xref.now) }
{
    let property = Iri::from_slice(alloc, has_dbxref())?;
    let text = xref.id.copy(alloc)?;
    let label = xref.label.copy(alloc)?;
    Ok(Side {
        property,
        value: NoteValue::Text(text),
        label,
    })
}

/// An annotation as an entry of an xref list.
#[tactic(auto, unfolding(crate::specs::Parts::xref_of))]
pub fn xref_of(alloc: Global, side: &Side) -> Result<Option<Xref>, NoMemory>
    ensures { IfOk result (λ xref. xref ≡ spec.xref_of side.now) }
{
    if side.property.as_slice() == has_dbxref() && is_label(&side.label) {
        labelled_xref(alloc, &side.value, &side.label)
    } else {
        Ok(None)
    }
}

/// The entry with the value for its id, and this label.
fn labelled_xref(
    alloc: Global,
    value: &NoteValue,
    label: &Option<Bytes>,
) -> Result<Option<Xref>, NoMemory>
    ensures { IfOk result (λ xref. xref ≡ option_and_then (spec.xref_with label.now) (text_of_value value.now)) }
{
    let Some(id) = text_of_value(value) else {
        return Ok(None);
    };
    if !is_word(id.as_slice()) {
        return Ok(None);
    }
    let id = id.copy(alloc)?;
    let label = label.copy(alloc)?;
    Ok(Some(Xref { id, label }))
}

/// An annotation as a text of this property.
#[tactic(auto, unfolding(crate::specs::Parts::text_of))]
pub fn text_of<'a>(property: &[u8], side: &'a Side) -> Option<&'a Bytes>
    ensures { option_map (λ text. text.now) result ≡ spec.text_of property.now side.now }
{
    if side.property.as_slice() == property {
        plain_text(side)
    } else {
        None
    }
}

/// A synonym type as an annotation.
pub fn side_of_type(alloc: Global, space: &Bytes, id: &Bytes) -> Result<Side, NoMemory>
    ensures { IfOk result (λ side. side ≡ spec.side_of_type (reading_in space.now) id.now) }
{
    let property = Iri::from_slice(alloc, has_synonym_type())?;
    let iri = iri_of(alloc, id, space)?;
    Ok(Side {
        property,
        value: NoteValue::Link(iri),
        label: None,
    })
}

/// The id of a value that is a link.
pub fn id_of_value(
    alloc: Global,
    space: &Bytes,
    value: &NoteValue,
) -> Result<Option<Bytes>, NoMemory>
    ensures { IfOk result (λ id. id ≡ spec.id_of_value (writing_in space.now) value.now) }
{
    match value {
        NoteValue::Link(iri) => id_of(alloc, iri, space),
        _ => Ok(None),
    }
}

/// An annotation as a synonym type.
#[tactic(auto, unfolding(crate::specs::Parts::type_of))]
pub fn type_of(alloc: Global, space: &Bytes, side: &Side) -> Result<Option<Bytes>, NoMemory>
    ensures { IfOk result (λ id. id ≡ spec.type_of (writing_in space.now) side.now) }
{
    if side.property.as_slice() == has_synonym_type() && side.label.is_none() {
        id_of_value(alloc, space, &side.value)
    } else {
        Ok(None)
    }
}

/// The word for a scope.
fn scope_word(scope: Scope) -> &'static [u8]
    ensures { result.now ≡ scope_word scope }
{
    match scope {
        Scope::Exact => b"EXACT",
        Scope::Broad => b"BROAD",
        Scope::Narrow => b"NARROW",
        Scope::Related => b"RELATED",
    }
}

/// The scope of a synonym type as an annotation.
pub fn side_of_scope(alloc: Global, scope: Scope) -> Result<Side, NoMemory>
    ensures { IfOk result (λ side. side ≡ spec.side_of_scope scope) }
{
    let property = Iri::from_slice(alloc, has_scope())?;
    let text = Bytes::from_slice(alloc, scope_word(scope))?;
    Ok(Side {
        property,
        value: NoteValue::Text(text),
        label: None,
    })
}

/// The scope that a word is.
#[tactic(auto, unfolding(crate::specs::Parts::scope_of_word))]
fn scope_of_word(word: &[u8]) -> Option<Scope>
    ensures { result ≡ spec.scope_of_word word.now }
{
    if b"EXACT".as_slice() == word {
        Some(Scope::Exact)
    } else if b"BROAD".as_slice() == word {
        Some(Scope::Broad)
    } else if b"NARROW".as_slice() == word {
        Some(Scope::Narrow)
    } else if b"RELATED".as_slice() == word {
        Some(Scope::Related)
    } else {
        None
    }
}

/// An annotation as the scope of a synonym type.
#[tactic(auto, unfolding(crate::specs::Parts::scope_of))]
pub fn scope_of(side: &Side) -> Option<Scope>
    ensures { result ≡ spec.scope_of side.now }
{
    match text_of(has_scope(), side) {
        Some(word) => scope_of_word(word.as_slice()),
        None => None,
    }
}
