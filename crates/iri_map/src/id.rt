//! The IRI that an id names in an ontology.
ghost use Rattle.std.specs.Prelude.{◌≡◌, ◌++◌, false, IfOk, OnOk, codes};
ghost use Rattle.std.specs.Char.{is_ascii_digit};
ghost use Rattle.std.specs.List.{list_all};
ghost use Rattle.std.specs.Option.{option_map};
ghost use Rattle.iri_map.specs.Escape.{escaped_part, escaped_url};
ghost use Rattle.iri_map.specs.Id as spec;
ghost use Rattle.iri_map.specs.Split.{after_start};

use crate::escape::{push_part, push_url};
use crate::split::{after_start, split_at_first};
use rel_io::{Bytes, Iri, NoMemory};
use std::alloc::Global;

/// What the IRI of an id that is no URL begins with.
const BASE: &[u8] = b"http://purl.obolibrary.org/obo/";

/// The IRI of an id, as it is read in an ontology of this name, by the first form that fits: a URL names
/// itself; a prefix and a number, as `GO:0000001`, a term of the OBO library; another id with a `:` is made
/// of two escaped parts; any other id stands behind the ontology's name. Any bytes have an IRI.
#[tactic(auto, unfolding(crate::specs::Id::iri_of))]
pub fn iri_of(alloc: Global, id: &Bytes, ontology: &Bytes) -> Result<Iri, NoMemory>
    ensures { IfOk result (λ iri. iri ≡ spec.iri_of id.now ontology.now) }
{
    let id = id.as_slice();
    if is_url(id) {
        return url_iri(alloc, id);
    }
    let mut iri = begun(alloc)?;
    push_id(&mut iri, id, ontology.as_slice())?;
    Ok(Iri::from_vec(iri))
}

/// Appends what the IRI of an id that is no URL has behind the base.
#[tactic(auto, unfolding(crate::specs::Id::iri_of))]
fn push_id(iri: &mut Vec<u8>, id: &[u8], ontology: &[u8]) -> Result<(), NoMemory>
    requires base { iri.old.items ≡ spec.base }
    requires no_url { spec.is_url id.now ≡ false }
    ensures { OnOk result (iri.new.items ≡ spec.iri_of id.now ontology.now) }
{
    match split_at_first(b':', id) {
        Some((prefix, number)) if is_prefix(prefix) && is_number(number) => {
            push_canonical(iri, prefix, number)
        }
        Some((prefix, local)) => push_prefixed(iri, prefix, local),
        None => push_plain(iri, id, ontology),
    }
}

/// Whether the text begins as a URL.
#[tactic(auto, unfolding(crate::specs::Id::is_url))]
pub fn is_url(text: &[u8]) -> bool
    ensures { result ≡ spec.is_url text.now }
{
    text.starts_with(b"http://") || text.starts_with(b"https://")
}

/// A URL, which names itself.
pub fn url_iri(alloc: Global, url: &[u8]) -> Result<Iri, NoMemory>
    ensures { IfOk result (λ iri. iri ≡ escaped_url url.now) }
{
    let mut iri = Vec::new(alloc);
    push_url(&mut iri, url)?;
    Ok(Iri::from_vec(iri))
}

/// The base, to be gone on with.
pub fn begun(alloc: Global) -> Result<Vec<u8>, NoMemory>
    ensures { IfOk result (λ iri. iri.items ≡ spec.base) }
{
    let iri = Vec::from_slice(alloc, BASE)?;
    Ok(iri)
}

/// What follows the base.
pub fn after_base(iri: &[u8]) -> Option<&[u8]>
    ensures { option_map (λ rest. rest.now) result ≡ after_start spec.base iri.now }
{
    after_start(BASE, iri)
}

/// Whether the id is canonical: a prefix, `:` and a number, as `EX:0000001`. Its IRI is the same in every
/// ontology.
#[tactic(auto, unfolding(crate::specs::Id::is_canonical_id))]
pub fn is_canonical_id(id: &[u8]) -> bool
    ensures { result ≡ spec.is_canonical_id id.now }
{
    match split_at_first(b':', id) {
        Some((prefix, number)) => is_prefix(prefix) && is_number(number),
        None => false,
    }
}

/// Whether the text is the prefix of a canonical id.
fn is_prefix(text: &[u8]) -> bool
    ensures { result ≡ spec.is_prefix text.now }
{
    match text {
        [] => false,
        [first, rest @ ..] => first.is_ascii_alphabetic() && are_word_bytes(rest),
    }
}

/// Whether each byte may follow the first one of a prefix.
fn are_word_bytes(text: &[u8]) -> bool
    ensures { result ≡ list_all spec.is_word_byte text.now }
{
    text.iter().all(|b| b.is_ascii_alphanumeric() || *b == b'_')
}

/// Whether the text is the number of a canonical id.
fn is_number(text: &[u8]) -> bool
    ensures { result ≡ spec.is_number text.now }
{
    !text.is_empty() && are_digits(text)
}

/// Whether each byte is an ASCII digit.
fn are_digits(text: &[u8]) -> bool
    ensures { result ≡ list_all is_ascii_digit text.now }
{
    text.iter().all(u8::is_ascii_digit)
}

/// Appends the prefix, `_` and the number.
fn push_canonical(iri: &mut Vec<u8>, prefix: &[u8], number: &[u8]) -> Result<(), NoMemory>
    ensures { OnOk result (iri.new.items ≡ iri.old.items ++ prefix.now ++ codes "_" ++ number.now) }
{
    iri.extend_from_slice(prefix)?;
    iri.extend_from_slice(b"_")?;
    iri.extend_from_slice(number)?;
    Ok(())
}

/// Appends what stands before the first `:`, `#_` and what stands after it.
fn push_prefixed(iri: &mut Vec<u8>, prefix: &[u8], local: &[u8]) -> Result<(), NoMemory>
    ensures { OnOk result
        (iri.new.items ≡ iri.old.items ++ escaped_part prefix.now ++ codes "#_" ++ escaped_part local.now) }
{
    push_part(iri, prefix)?;
    iri.extend_from_slice(b"#_")?;
    push_part(iri, local)
}

/// Appends the ontology's name, `#` and the id.
fn push_plain(iri: &mut Vec<u8>, id: &[u8], ontology: &[u8]) -> Result<(), NoMemory>
    ensures { OnOk result
        (iri.new.items ≡ iri.old.items ++ escaped_part ontology.now ++ codes "#" ++ escaped_part id.now) }
{
    push_part(iri, ontology)?;
    iri.extend_from_slice(b"#")?;
    push_part(iri, id)
}
