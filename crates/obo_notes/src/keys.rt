//! The keys of qualifiers, and the annotation properties that they stand for.
ghost use Rattle.std.specs.Prelude.{◌≡◌, ◌++◌, IfOk};
ghost use Rattle.std.specs.List.{list_all};
ghost use Rattle.std.specs.Option.{option_and_then, option_map};
ghost use Rattle.percent_encoding.specs.Percent.{percent_decode};
ghost use Rattle.iri_map.specs.Escape.{escaped_part};
ghost use Rattle.iri_map.specs.Split.{after_start};
ghost use Rattle.obo_clause.specs.Marks.{bare};
ghost use Rattle.obo_clause.specs.Vocabulary.{is_key_mark};
ghost use Rattle.obo_notes.specs.Keys as spec;
ghost use Rattle.obo_notes.specs.Vocabulary.{obo_in_owl};

use crate::texts::{is_text, is_utf8};
use crate::vocabulary::obo_in_owl;
use iri_map::{after_start, decoded, is_url, push_part, url_iri};
use obo_clause::{Qualifier, ends_key};
use owl_axioms::{NoteValue, Side};
use rel_io::{Bytes, Dup, Iri, NoMemory};
use std::alloc::Global;

/// The property of a key: a URL names itself, any other key a property of oboInOwl.
#[tactic(auto, unfolding(crate::specs::Keys::key_property))]
pub fn key_property(alloc: Global, key: &[u8]) -> Result<Iri, NoMemory>
    ensures { IfOk result (λ property. property ≡ spec.key_property key.now) }
{
    if is_url(key) {
        url_iri(alloc, key)
    } else {
        own_property(alloc, key)
    }
}

/// The property of oboInOwl with this name.
fn own_property(alloc: Global, name: &[u8]) -> Result<Iri, NoMemory>
    ensures { IfOk result (λ property. property ≡ obo_in_owl ++ escaped_part name.now) }
{
    let mut property = Vec::from_slice(alloc, obo_in_owl())?;
    push_part(&mut property, name)?;
    Ok(Iri::from_vec(property))
}

/// Whether all bytes may stand in a key.
fn are_key_bytes(key: &[u8]) -> bool
    ensures { result ≡ list_all (λ byte. is_key_mark (bare byte)) key.now }
{
    key.iter().all(|byte| !ends_key(*byte))
}

/// Whether a line can have the key.
#[tactic(auto, unfolding(crate::specs::Keys::is_key))]
fn is_key(key: &[u8]) -> bool
    ensures { result ≡ spec.is_key key.now }
{
    !key.is_empty() && are_key_bytes(key) && is_utf8(key)
}

/// Whether the key has a meaning of its own.
#[tactic(auto, unfolding(crate::specs::Keys::is_reserved_key))]
pub fn is_reserved_key(key: &[u8]) -> bool
    ensures { result ≡ spec.is_reserved_key key.now }
{
    b"all_only".as_slice() == key
        || b"cardinality".as_slice() == key
        || b"minCardinality".as_slice() == key
        || b"maxCardinality".as_slice() == key
        || b"gci_relation".as_slice() == key
        || b"gci_filler".as_slice() == key
}

/// Whether a qualifier with the key gives the property.
fn gives(alloc: Global, property: &[u8], key: &[u8]) -> Result<bool, NoMemory>
    ensures { IfOk result (λ gives. gives ≡ spec.gives property.now key.now) }
{
    let gives = is_key(key)
        && !is_reserved_key(key)
        && key_property(alloc, key)?.as_slice() == property;
    Ok(gives)
}

/// The key of a property: what stands behind that of oboInOwl, decoded, or else the property itself.
#[tactic(auto, unfolding(crate::specs::Keys::key_of))]
pub fn key_of(alloc: Global, property: &Iri) -> Result<Option<Bytes>, NoMemory>
    ensures { IfOk result (λ key. key ≡ spec.key_of property.now) }
{
    match own_key(alloc, property.as_slice())? {
        Some(key) => Ok(Some(key)),
        None => full_key(alloc, property.as_slice()),
    }
}

/// What stands behind the beginning of oboInOwl, decoded, where it is a key of the property.
fn own_key(alloc: Global, property: &[u8]) -> Result<Option<Bytes>, NoMemory>
    ensures { IfOk result (λ key. key ≡
        option_and_then (λ rest. spec.key_if property.now (percent_decode rest)) (after_start obo_in_owl property.now)) }
{
    let Some(rest) = after_start(obo_in_owl(), property) else {
        return Ok(None);
    };
    let key = decoded(alloc, rest)?;
    let gives = gives(alloc, property, key.as_slice())?;
    Ok(gives.then_some(Bytes::from_vec(key)))
}

/// The property itself, where it is a key of the property.
fn full_key(alloc: Global, property: &[u8]) -> Result<Option<Bytes>, NoMemory>
    ensures { IfOk result (λ key. key ≡ spec.key_if property.now property.now) }
{
    if gives(alloc, property, property)? {
        let key = Bytes::from_slice(alloc, property)?;
        Ok(Some(key))
    } else {
        Ok(None)
    }
}

/// The annotation with a text alone.
pub fn text_side(alloc: Global, property: Iri, text: &Bytes) -> Result<Side, NoMemory>
    ensures { IfOk result (λ side. side ≡ spec.text_side property text.now) }
{
    let text = text.copy(alloc)?;
    Ok(Side {
        property,
        value: NoteValue::Text(text),
        label: None,
    })
}

/// A qualifier as an annotation.
pub fn side_of_qualifier(alloc: Global, qualifier: &Qualifier) -> Result<Side, NoMemory>
    ensures { IfOk result (λ side. side ≡ spec.side_of_qualifier qualifier.now) }
{
    let property = key_property(alloc, qualifier.key.as_slice())?;
    text_side(alloc, property, &qualifier.value)
}

/// The text of a value, where a line can hold it.
pub fn text_of_value(value: &NoteValue) -> Option<&Bytes>
    ensures { option_map (λ text. text.now) result ≡ spec.text_of_value value.now }
{
    match value {
        NoteValue::Text(text) => is_text(text.as_slice()).then_some(text),
        _ => None,
    }
}

/// The text of an annotation without a label.
pub fn plain_text(side: &Side) -> Option<&Bytes>
    ensures { option_map (λ text. text.now) result ≡ spec.plain_text side.now }
{
    match side.label {
        None => text_of_value(&side.value),
        Some(_) => None,
    }
}

/// An annotation as a qualifier.
#[tactic(auto, unfolding(crate::specs::Keys::qualifier_of))]
pub fn qualifier_of(alloc: Global, side: &Side) -> Result<Option<Qualifier>, NoMemory>
    ensures { IfOk result (λ qualifier. qualifier ≡ spec.qualifier_of side.now) }
{
    let Some(key) = key_of(alloc, &side.property)? else {
        return Ok(None);
    };
    let Some(text) = plain_text(side) else {
        return Ok(None);
    };
    let value = text.copy(alloc)?;
    Ok(Some(Qualifier { key, value }))
}
