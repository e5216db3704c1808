//! `Tag`: a tag that some frame kind has, with its rank and the shape of its value.
ghost use Rattle.std.specs.Prelude.{◌≡◌, IsTrue, nat_eq};
ghost use Rattle.std.specs.Cmp.{partial_equiv_from_equiv};
ghost use Rattle.std.specs.Cmp.Lexicographic.{pointwise, slice_cmp};
ghost use Rattle.std.specs.Option.{SomeIff};
ghost use Rattle.std.specs.Ordering.{nat_cmp};
ghost use Rattle.std.proofs.lemmas.Cmp.{nat_list_eq_equiv};
ghost use Rattle.obo_tags.specs.Table.{is_known, place_of, shape_behind};

use crate::table::{Row, rows};
use crate::{FrameKind, ValueShape};
use rel_io::{Dup, NoMemory};
use std::alloc::Global;
use std::cmp::Ordering;
use std::marker::Model;

/// A tag that some frame kind has, seen as its bytes.
#[derive(Clone, Copy, Debug)]
pub struct Tag {
    row: u8,
}

impl Model for Tag {
    ghost use Rattle.std.specs.Prelude.{◌<◌, List, ℕ};
    ghost use Rattle.std.proofs.Common.{ap};
    ghost use Rattle.obo_tags.specs.inner.Rows.{row_of, row_of-tag_at, tag_at};

    ghost Value = { List ℕ };

    ghost view = { λ tag. tag_at tag.row };

    ghost invariant = { λ tag. tag.row < 51 };

    ghost inverse = { λ bytes. record { row = row_of bytes } };

    ghost inverse_ok = { λ tag known. ap (λ row. record { row = row }) (row_of-tag_at tag.row known) };
}

impl Tag {
    /// The tag as a line has it.
    pub fn bytes(self) -> &'static [u8]
        ensures { result.now ≡ self }
    {
        rows()[usize::from(self.row)].0
    }
}

impl Dup for Tag {
    fn copy(&self, _alloc: Global) -> Result<Tag, NoMemory> {
        Ok(*self)
    }
}

impl PartialEq for Tag {
    ghost eq = { pointwise nat_eq };

    ghost laws = { partial_equiv_from_equiv nat_list_eq_equiv };

    fn eq(&self, other: &Tag) -> bool {
        self.bytes() == other.bytes()
    }
}

impl Eq for Tag {
    ghost laws = { nat_list_eq_equiv };
}

/// The tag with these bytes, if some frame kind has it.
pub fn tag_of(name: &[u8]) -> Option<Tag>
    ensures { SomeIff result (IsTrue (is_known name.now)) name.now }
{
    match rows().binary_search_by(|row| order(row, name)) {
        Ok(row) => Some(Tag { row: row as u8 }),
        Err(_) => None,
    }
}

/// How the tag of a row stands to a name, byte by byte.
fn order(row: &Row, name: &[u8]) -> Ordering
    ensures { result ≡ slice_cmp nat_cmp row.now.0.now name.now }
{
    row.0.cmp(name)
}

/// The place of the tag among those of the frame kind, in printed order. None: it is foreign there.
pub fn rank(kind: FrameKind, tag: Tag) -> Option<u8>
    ensures { result ≡ place_of kind tag }
{
    let row = &rows()[usize::from(tag.row)];
    match kind {
        FrameKind::Header => row.2,
        FrameKind::Term => row.3,
        FrameKind::Typedef => row.4,
        FrameKind::Instance => row.5,
    }
}

/// The shape of a value behind the tag: Raw behind one that is foreign or unknown.
pub fn shape(kind: FrameKind, tag: Option<Tag>) -> ValueShape
    ensures { result ≡ shape_behind kind tag }
{
    let Some(tag) = tag else {
        return ValueShape::Raw;
    };
    if rank(kind, tag).is_none() {
        return ValueShape::Raw;
    }
    rows()[usize::from(tag.row)].1
}
