//! What a clause is sorted by, and what it leads to.
ghost use Rattle.std.specs.Prelude.{◌≡◌, IfOk, is_some, length};
ghost use Rattle.std.specs.Str.{bytes_eq};
ghost use Rattle.obo_tags.specs.Table.{is_among, place_of, tags_of};
ghost use Rattle.obo_tags.specs.declared.kind.FrameKind.TheVariants as kind;
ghost use Rattle.obo_frames.specs.Frames.{id_in};
ghost use Rattle.obo_text.specs.Order as order;
ghost use Rattle.obo_text.specs.Text as spec;
ghost use Rattle.obo_text.specs.inner.Rows as rows;

use obo_clause::{Clause, Value};
use obo_tags::{FrameKind, rank, tag_of};
use rel_io::{Bytes, Dup, NoMemory};
use std::alloc::Global;

/// The place of a kind in the order in which frames are written.
pub fn kind_place(kind: FrameKind) -> u32
    ensures { result ≡ order.kind_place kind }
{
    match kind {
        FrameKind::Header => 0,
        FrameKind::Term => 1,
        FrameKind::Typedef => 2,
        FrameKind::Instance => 3,
    }
}

/// The place of a clause in its frame.
pub fn clause_place(kind: FrameKind, clause: &Clause) -> u32
    ensures { result ≡ rows.clause_place kind clause.now }
{
    if gives_id(clause) {
        0
    } else {
        place_behind(kind, clause.tag.as_slice())
    }
}

/// Whether the clause gives its frame the id.
fn gives_id(clause: &Clause) -> bool
    ensures { result ≡ is_some (id_in clause.now) }
{
    clause.tag.as_slice() == b"id".as_slice() && matches!(clause.value, Value::Id(_))
}

/// The place of a tag behind the first clause of a frame.
fn place_behind(kind: FrameKind, tag: &[u8]) -> u32
    ensures { result ≡ order.place_behind kind tag.now }
{
    if tag == b"id".as_slice() {
        return tag_count(kind);
    }
    match place_of(kind, tag) {
        Some(place) => u32::from(place),
        None => tag_count(kind),
    }
}

/// The place of a tag among those of the kind.
fn place_of(kind: FrameKind, tag: &[u8]) -> Option<u8>
    ensures { result ≡ place_of kind tag.now }
{
    match tag_of(tag) {
        Some(known) => rank(kind, known),
        None => None,
    }
}

/// How many tags the kind has.
#[tactic(auto, unfolding(obo_tags::specs::Table::tags_of))]
fn tag_count(kind: FrameKind) -> u32
    ensures { result ≡ length (tags_of kind) }
{
    match kind {
        FrameKind::Header => 13,
        FrameKind::Term => 23,
        FrameKind::Typedef => 35,
        FrameKind::Instance => 18,
    }
}

/// The last id of a value.
pub fn last_id(alloc: Global, value: &Value) -> Result<Option<Bytes>, NoMemory>
    ensures { IfOk result (λ id. id ≡ spec.last_id value.now) }
{
    match value {
        Value::Id(word) => word.copy(alloc).map(Some),
        Value::Pair(_, second) => second.copy(alloc).map(Some),
        _ => Ok(None),
    }
}

/// Whether the clause gives its frame a name.
pub fn is_name(clause: &Clause) -> bool
    ensures { result ≡ is_some (spec.name_in clause.now) }
{
    clause.tag.as_slice() == b"name".as_slice() && matches!(clause.value, Value::Text(_))
}

/// The kind of the frame that the last id of a clause with this tag leads to.
pub fn target_kind(kind: FrameKind, tag: &[u8]) -> Option<FrameKind>
    ensures { result ≡ spec.target_kind kind tag.now }
{
    match kind {
        FrameKind::Header => None,
        FrameKind::Term => target_in_term(tag),
        FrameKind::Typedef => target_in_typedef(tag),
        FrameKind::Instance => target_in_instance(tag),
    }
}

/// The same in a Term.
fn target_in_term(tag: &[u8]) -> Option<FrameKind>
    ensures { result ≡ spec.target_kind kind.Term tag.now }
{
    if is_term_tag(tag) {
        Some(FrameKind::Term)
    } else {
        None
    }
}

/// Whether the last id behind the tag leads to a Term, in a Term.
fn is_term_tag(tag: &[u8]) -> bool
    ensures { result ≡ is_among spec.term_tags tag.now }
{
    is_word(b"is_a", tag)
        || is_word(b"intersection_of", tag)
        || is_word(b"union_of", tag)
        || is_word(b"equivalent_to", tag)
        || is_word(b"disjoint_from", tag)
        || is_word(b"relationship", tag)
}

/// The same in a Typedef.
fn target_in_typedef(tag: &[u8]) -> Option<FrameKind>
    ensures { result ≡ spec.target_kind kind.Typedef tag.now }
{
    if is_typedef_tag(tag) {
        Some(FrameKind::Typedef)
    } else if is_word(b"domain", tag) || is_word(b"range", tag) {
        Some(FrameKind::Term)
    } else {
        None
    }
}

/// Whether the last id behind the tag leads to a Typedef, in a Typedef.
fn is_typedef_tag(tag: &[u8]) -> bool
    ensures { result ≡ is_among spec.typedef_tags tag.now }
{
    is_word(b"is_a", tag)
        || is_word(b"equivalent_to", tag)
        || is_word(b"disjoint_from", tag)
        || is_word(b"inverse_of", tag)
        || is_word(b"transitive_over", tag)
}

/// The same in an Instance.
fn target_in_instance(tag: &[u8]) -> Option<FrameKind>
    ensures { result ≡ spec.target_kind kind.Instance tag.now }
{
    if tag == b"instance_of".as_slice() {
        Some(FrameKind::Term)
    } else if tag == b"relationship".as_slice() {
        Some(FrameKind::Instance)
    } else {
        None
    }
}

/// Whether the word is the tag.
fn is_word(word: &[u8], tag: &[u8]) -> bool
    ensures { result ≡ bytes_eq word.now tag.now }
{
    word == tag
}
