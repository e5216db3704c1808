//! Whether a line can spell a clause, in a frame of a kind.
ghost use Rattle.std.specs.Prelude.{◌≡◌, ◌&&◌, ◌↔◌, IsTrue, codes, not};
ghost use Rattle.std.specs.List.{list_all, list_any};
ghost use Rattle.std.specs.Str.{bytes_eq, is_utf8};
ghost use Rattle.rel_io.specs.Texts.{is_line_feed, is_return};
ghost use Rattle.obo_clause.specs.Fits.{Fits};
ghost use Rattle.obo_clause.specs.Marks.{bare};
ghost use Rattle.obo_clause.specs.Spelling.{shape_at};
ghost use Rattle.obo_clause.specs.Vocabulary.{is_key_mark};
ghost use Rattle.obo_clause.specs.inner.FitTests as test;

use crate::bytes::{ends_key, is_blank, is_tag};
use crate::{Clause, Qualifier, Value, Xref};
use obo_tags::{FrameKind, ValueShape, shape, tag_of};
use rel_io::Bytes;

/// Whether some line spells the clause in a frame of the kind. `first` says that the frame has no clause before it.
pub fn fits(kind: FrameKind, first: bool, clause: &Clause) -> bool
    ensures { IsTrue result ↔ Fits kind first clause.now }
{
    passes(kind, first, clause)
}

/// Whether all parts of the clause are as they have to be.
fn passes(kind: FrameKind, first: bool, clause: &Clause) -> bool
    ensures { result ≡ test.fits kind first clause.now }
{
    let tag = clause.tag.as_slice();
    let shape = shape_at(kind, first, tag);
    is_tag(tag)
        && fits_shape(shape, &clause.value)
        && fit_behind(shape, clause.qualifiers.as_slice())
}

/// The shape of the value behind the tag: an `id` that is not the first clause of its frame is foreign, as is a tag that
/// the frame kind does not have.
pub fn shape_at(kind: FrameKind, first: bool, tag: &[u8]) -> ValueShape
    ensures { result ≡ shape_at kind first tag.now }
{
    if is_late_id(first, tag) {
        return ValueShape::Raw;
    }
    shape(kind, tag_of(tag))
}

/// Whether this is an `id` that is not the first clause of its frame.
fn is_late_id(first: bool, tag: &[u8]) -> bool
    ensures { result ≡ (bytes_eq tag.now (codes "id") && not first) }
{
    tag == b"id".as_slice() && !first
}

/// Whether the value is one of the shape, and its parts are as they have to be.
#[tactic(auto, unfolding(crate::specs::inner::FitTests::fits_shape))]
fn fits_shape(shape: ValueShape, value: &Value) -> bool
    ensures { result ≡ test.fits_shape shape value.now }
{
    match (shape, value) {
        (ValueShape::Text, Value::Text(text)) => is_text(text.as_slice()),
        (ValueShape::Id | ValueShape::IdOrPair, Value::Id(word)) => is_word(word),
        (ValueShape::Pair | ValueShape::IdOrPair, Value::Pair(first, second)) => {
            is_word(first) && is_word(second)
        }
        (ValueShape::Bool, Value::Bool(_)) => true,
        (ValueShape::Def, Value::Def { text, xrefs }) => {
            is_text(text.as_slice()) && fit_xrefs(xrefs.as_slice())
        }
        (
            ValueShape::Synonym,
            Value::Synonym {
                text,
                kind,
                xrefs,
                ..
            },
        ) => { is_text(text.as_slice()) && is_word_or_none(kind) && fit_xrefs(xrefs.as_slice()) }
        (ValueShape::XrefShape, Value::XrefValue(xref)) => fits_xref(xref),
        (
            ValueShape::Property,
            Value::Literal {
                relation,
                text,
                datatype,
            },
        ) => is_word(relation) && is_text(text.as_slice()) && is_word(datatype),
        (ValueShape::Property, Value::Link { relation, target }) => {
            is_word(relation) && is_word(target)
        }
        (ValueShape::SubsetDef, Value::SubsetDef { id, text }) => {
            is_word(id) && is_text(text.as_slice())
        }
        (ValueShape::SynonymDef, Value::SynonymDef { id, text, .. }) => {
            is_word(id) && is_text(text.as_slice())
        }
        (ValueShape::Raw, Value::Raw(text)) => is_raw_text(text.as_slice()),
        _ => false,
    }
}

/// Whether the qualifiers may stand behind a value of the shape.
fn fit_behind(shape: ValueShape, qualifiers: &[Qualifier]) -> bool
    ensures { result ≡ test.fit_behind shape qualifiers.now }
{
    match shape {
        ValueShape::Raw => qualifiers.is_empty(),
        _ => fit_qualifiers(qualifiers),
    }
}

/// Whether all qualifiers are as they have to be.
fn fit_qualifiers(qualifiers: &[Qualifier]) -> bool
    ensures { result ≡ list_all test.fits_qualifier qualifiers.now }
{
    qualifiers.iter().all(|one| fits_qualifier(one))
}

/// Whether the qualifier has a key and a text.
fn fits_qualifier(qualifier: &Qualifier) -> bool
    ensures { result ≡ test.fits_qualifier qualifier.now }
{
    is_key(qualifier.key.as_slice()) && is_text(qualifier.value.as_slice())
}

/// Whether all xrefs are as they have to be.
fn fit_xrefs(xrefs: &[Xref]) -> bool
    ensures { result ≡ list_all test.fits_xref xrefs.now }
{
    xrefs.iter().all(|one| fits_xref(one))
}

/// Whether the xref has an id, and no label or a text.
fn fits_xref(xref: &Xref) -> bool
    ensures { result ≡ test.fits_xref xref.now }
{
    is_word(&xref.id) && is_text_or_none(&xref.label)
}

/// Whether the bytes are the key of a qualifier.
fn is_key(key: &[u8]) -> bool
    ensures { result ≡ test.is_key key.now }
{
    !key.is_empty() && are_key_bytes(key) && is_utf8(key)
}

/// Whether all bytes may stand in the key of a qualifier.
fn are_key_bytes(key: &[u8]) -> bool
    ensures { result ≡ list_all (λ byte. is_key_mark (bare byte)) key.now }
{
    key.iter().all(|byte| !ends_key(*byte))
}

/// Whether there is no word, or it is one.
fn is_word_or_none(word: &Option<Bytes>) -> bool
    ensures { result ≡ test.is_word_or_none word.now }
{
    match word {
        Some(word) => is_word(word),
        None => true,
    }
}

/// Whether there is no label, or it is a text.
fn is_text_or_none(label: &Option<Bytes>) -> bool
    ensures { result ≡ test.is_text_or_none label.now }
{
    match label {
        Some(text) => is_text(text.as_slice()),
        None => true,
    }
}

/// Whether escapes can spell the text as a word.
fn is_word(word: &Bytes) -> bool
    ensures { result ≡ test.is_word word.now }
{
    let word = word.as_slice();
    !word.is_empty() && is_text(word)
}

/// Whether the text may stand behind a foreign tag.
fn is_raw_text(text: &[u8]) -> bool
    ensures { result ≡ test.is_raw_text text.now }
{
    is_trimmed(text) && is_text(text) && !has_line_feed(text)
}

/// Whether no blank stands at either end.
fn is_trimmed(text: &[u8]) -> bool
    ensures { result ≡ test.is_trimmed text.now }
{
    match text {
        [] => true,
        [first, ..] => !is_blank(*first) && !is_blank(text[text.len() - 1]),
    }
}

/// Whether escapes can spell the text.
fn is_text(text: &[u8]) -> bool
    ensures { result ≡ test.is_text text.now }
{
    is_utf8(text) && !has_return(text)
}

/// Whether a CR stands in the text.
fn has_return(text: &[u8]) -> bool
    ensures { result ≡ list_any is_return text.now }
{
    text.contains(&b'\r')
}

/// Whether an LF stands in the text.
fn has_line_feed(text: &[u8]) -> bool
    ensures { result ≡ list_any is_line_feed text.now }
{
    text.contains(&b'\n')
}

/// Whether the bytes are UTF-8.
fn is_utf8(text: &[u8]) -> bool
    ensures { result ≡ is_utf8 text.now }
{
    simdutf8::is_utf8(text)
}
