//! Datatypes, and the words that stand for them.
ghost use Rattle.std.specs.Prelude.{◌≡◌, ◌++◌, IfOk};
ghost use Rattle.std.specs.Option.{option_and_then, option_or};
ghost use Rattle.percent_encoding.specs.Percent.{percent_decode};
ghost use Rattle.iri_map.specs.Candidate.{id_of};
ghost use Rattle.iri_map.specs.Escape.{escaped_part};
ghost use Rattle.iri_map.specs.Split.{after_start};
ghost use Rattle.obo_notes.specs.Context as spec;
ghost use Rattle.obo_notes.specs.Vocabulary.{xsd};

use crate::texts::is_text;
use crate::vocabulary::xsd;
use iri_map::{after_start, decoded, id_of, iri_of, is_url, push_part, url_iri};
use rel_io::{Bytes, Iri, NoMemory};
use std::alloc::Global;

/// What a word for a datatype of XML Schema begins with.
const PREFIX: &[u8] = b"xsd:";

/// The IRI of a datatype: of XML Schema, where a text that a line can hold stands behind `xsd:`, and else that of an id.
#[tactic(auto, unfolding(crate::specs::Context::datatype_iri))]
pub fn datatype_iri(alloc: Global, space: &Bytes, word: &Bytes) -> Result<Iri, NoMemory>
    ensures { IfOk result (λ iri. iri ≡ spec.datatype_iri (spec.reading_in space.now) word.now) }
{
    match after_start(PREFIX, word.as_slice()) {
        Some(name) if is_text(name) => xsd_iri(alloc, name),
        _ => iri_of(alloc, word, space),
    }
}

/// The IRI of the datatype of XML Schema with this name.
fn xsd_iri(alloc: Global, name: &[u8]) -> Result<Iri, NoMemory>
    ensures { IfOk result (λ iri. iri ≡ xsd ++ escaped_part name.now) }
{
    let mut iri = Vec::from_slice(alloc, xsd())?;
    push_part(&mut iri, name)?;
    Ok(Iri::from_vec(iri))
}

/// The word of a datatype: `xsd:` and its name, else its id, and else its URL.
#[tactic(auto, unfolding(crate::specs::Context::datatype_word))]
pub fn datatype_word(alloc: Global, space: &Bytes, iri: &Iri) -> Result<Option<Bytes>, NoMemory>
    ensures { IfOk result (λ word. word ≡ spec.datatype_word (spec.writing_in space.now) iri.now) }
{
    match xsd_word(alloc, iri.as_slice())? {
        Some(word) => Ok(Some(word)),
        None => other_word(alloc, space, iri),
    }
}

/// The word of a datatype of XML Schema.
fn xsd_word(alloc: Global, iri: &[u8]) -> Result<Option<Bytes>, NoMemory>
    ensures { IfOk result (λ word. word ≡
        option_and_then (λ rest. spec.xsd_name iri.now (percent_decode rest)) (after_start xsd iri.now)) }
{
    let Some(rest) = after_start(xsd(), iri) else {
        return Ok(None);
    };
    let name = decoded(alloc, rest)?;
    let gives = is_text(name.as_slice()) && xsd_iri(alloc, name.as_slice())?.as_slice() == iri;
    let word = prefixed(alloc, name.as_slice())?;
    Ok(gives.then_some(word))
}

/// The word for the datatype of XML Schema with this name.
fn prefixed(alloc: Global, name: &[u8]) -> Result<Bytes, NoMemory>
    ensures { IfOk result (λ word. word ≡ spec.xsd_prefix ++ name.now) }
{
    let mut word = Vec::from_slice(alloc, PREFIX)?;
    word.extend_from_slice(name)?;
    Ok(Bytes::from_vec(word))
}

/// The id of a datatype, where it is none that begins with `xsd:`, and else the URL.
fn other_word(alloc: Global, space: &Bytes, iri: &Iri) -> Result<Option<Bytes>, NoMemory>
    ensures { IfOk result (λ word. word ≡
        option_or (option_and_then spec.other_name (id_of iri.now space.now)) (spec.url_name iri.now)) }
{
    match id_of(alloc, iri, space)? {
        Some(id) if after_start(PREFIX, id.as_slice()).is_none() => Ok(Some(id)),
        _ => url_word(alloc, iri.as_slice()),
    }
}

/// The datatype as a URL, where this gives it.
#[tactic(auto)]
fn url_word(alloc: Global, iri: &[u8]) -> Result<Option<Bytes>, NoMemory>
    ensures { IfOk result (λ word. word ≡ spec.url_name iri.now) }
{
    let gives = is_url(iri) && url_iri(alloc, iri)?.as_slice() == iri;
    let word = Bytes::from_slice(alloc, iri)?;
    Ok(gives.then_some(word))
}
