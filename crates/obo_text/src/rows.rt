//! Clauses as rows, and their order.
ghost use Rattle.std.specs.Prelude.{◌≡◌, ◌∷◌, [], IfOk, nat_eq, refl, map};
ghost use Rattle.std.specs.Cmp.{on_equiv, on_per, on_po, on_total, partial_equiv_from_equiv};
ghost use Rattle.std.specs.Cmp.Lexicographic.{lists_equiv, lists_ties, lists_total, nat_list_cmp_total, pointwise, slice_cmp, texts_ties};
ghost use Rattle.std.specs.Ordering.{as_partial_cmp, nat_cmp};
ghost use Rattle.std.proofs.lemmas.Cmp.{nat_list_eq_equiv};
ghost use Rattle.text_sets.specs.Sets.{AreTold};
ghost use Rattle.text_sets.specs.Sorted.{by_key, sorted_on, text_cmp, texts_cmp};
ghost use Rattle.obo_frames.specs.Framed.{unlined};
ghost use Rattle.obo_text.specs.inner.RowOrder.{texts_lists_po};
ghost use Rattle.obo_text.specs.inner.Rows.{key_behind_id, key_behind_tag, row_at, row_key, row_of, rows_in};

use crate::clauses::{clause_place, is_name, kind_place, last_id};
use clause_printer::{push_block, push_value};
use obo_clause::Clause;
use obo_frames::Placed;
use obo_tags::FrameKind;
use rel_io::{Bytes, NoMemory};
use std::alloc::Global;
use std::cmp::Ordering;
use std::marker::Model;

/// A clause of the frames of one kind, which borrows its id and its tag from the document. It is compared by all parts but
/// the last two, which follow from the others.
#[derive(Drop)]
pub struct Row<'a> {
    /// The id of its frame.
    pub id: &'a Bytes,
    /// The place of its tag among those of the frame.
    pub place: u32,
    /// The tag.
    pub tag: &'a Bytes,
    /// The printed value.
    pub value: Bytes,
    /// The printed block.
    pub block: Bytes,
    /// The last id of the value.
    pub target: Option<Bytes>,
    /// Whether the clause gives its frame a name.
    pub is_name: bool,
}

impl<'a> Model for Row<'a> {
    ghost use Rattle.obo_text.specs.inner.RowState.{RowState};

    ghost Value = { RowState };

    ghost view = { λ row. record { id = row.id.now; place = row.place; tag = row.tag.now; value = row.value; block = row.block; target = row.target; is_name = row.is_name } };
}

impl<'a> PartialEq for Row<'a> {
    ghost eq = { λ one other. pointwise (pointwise nat_eq)
        (one.id ∷ (one.place ∷ []) ∷ one.tag ∷ one.value ∷ one.block ∷ [])
        (other.id ∷ (other.place ∷ []) ∷ other.tag ∷ other.value ∷ other.block ∷ []) };

    ghost laws = { on_per (λ row. row.id ∷ (row.place ∷ []) ∷ row.tag ∷ row.value ∷ row.block ∷ []) (partial_equiv_from_equiv (lists_equiv nat_list_eq_equiv)) };

    fn eq(&self, other: &Row) -> bool {
        self.id == other.id
            && self.place == other.place
            && self.tag == other.tag
            && self.value == other.value
            && self.block == other.block
    }
}

impl<'a> Eq for Row<'a> {
    ghost laws = { on_equiv (λ row. row.id ∷ (row.place ∷ []) ∷ row.tag ∷ row.value ∷ row.block ∷ []) (lists_equiv nat_list_eq_equiv) };
}

impl<'a> PartialOrd for Row<'a> {
    ghost partial_cmp = { as_partial_cmp (by_key texts_cmp (λ row. row.id ∷ (row.place ∷ []) ∷ row.tag ∷ row.value ∷ row.block ∷ [])) };

    ghost laws = { on_po (λ row. row.id ∷ (row.place ∷ []) ∷ row.tag ∷ row.value ∷ row.block ∷ []) texts_lists_po };

    fn partial_cmp(&self, other: &Row) -> Option<Ordering> {
        Some(self.cmp(other))
    }
}

impl<'a> Ord for Row<'a> {
    ghost cmp = { by_key texts_cmp (λ row. row.id ∷ (row.place ∷ []) ∷ row.tag ∷ row.value ∷ row.block ∷ []) };

    ghost total = { on_total (λ row. row.id ∷ (row.place ∷ []) ∷ row.tag ∷ row.value ∷ row.block ∷ []) (lists_total nat_list_cmp_total) };

    ghost matches_partial_cmp = { λ x y. refl };

    ghost matches_eq = { λ x y. lists_ties (slice_cmp nat_cmp) texts_ties
        (x.id ∷ (x.place ∷ []) ∷ x.tag ∷ x.value ∷ x.block ∷ [])
        (y.id ∷ (y.place ∷ []) ∷ y.tag ∷ y.value ∷ y.block ∷ []) };

    fn cmp(&self, other: &Row) -> Ordering {
        match self.id.cmp(other.id) {
            Ordering::Equal => behind_id(self, other),
            apart => apart,
        }
    }
}

/// The order of two rows of one frame.
fn behind_id(one: &Row, other: &Row) -> Ordering
    ensures { result ≡ by_key texts_cmp key_behind_id one.now other.now }
{
    match one.place.cmp(&other.place) {
        Ordering::Equal => match one.tag.cmp(other.tag) {
            Ordering::Equal => behind_tag(one, other),
            apart => apart,
        },
        apart => apart,
    }
}

/// The order of two rows of one frame and tag.
fn behind_tag(one: &Row, other: &Row) -> Ordering
    ensures { result ≡ by_key texts_cmp key_behind_tag one.now other.now }
{
    match one.value.cmp(&other.value) {
        Ordering::Equal => one.block.cmp(&other.block),
        apart => apart,
    }
}

/// The rows in their order, each once, where equal parts to compare by stand in equal rows.
pub fn sorted_rows<'a>(rows: Vec<Row<'a>>) -> Vec<Row<'a>>
    ensures { AreTold row_key rows.entry.items → result.items ≡ sorted_on texts_cmp row_key rows.entry.items }
{
    let mut rows = rows;
    rows.sort_unstable();
    rows.dedup();
    rows.shrink_to_fit();
    rows
}

/// The rows of the frames of a kind, as they stand in the document.
pub fn rows_in<'a>(
    alloc: Global,
    kind: FrameKind,
    placed: &'a [Placed],
) -> Result<Vec<Row<'a>>, NoMemory>
    ensures { IfOk result (λ rows. rows.items ≡ rows_in kind (map unlined placed.now)) }
{
    let mut rows = Vec::new(alloc);
    for one in placed {
        if let Some(row) = row_at(alloc, kind, one)? {
            rows.push(row)?;
        }
    }
    Ok(rows)
}

/// A clause as a row, if its frame is of the kind.
fn row_at<'a>(alloc: Global, kind: FrameKind, one: &'a Placed) -> Result<Option<Row<'a>>, NoMemory>
    ensures { IfOk result (λ row. row ≡ row_at kind (unlined one.now)) }
{
    if kind_place(one.frame) == kind_place(kind) {
        row_of(alloc, kind, &one.id, &one.clause).map(Some)
    } else {
        Ok(None)
    }
}

/// A clause as a row, with texts at their size.
fn row_of<'a>(
    alloc: Global,
    kind: FrameKind,
    id: &'a Bytes,
    clause: &'a Clause,
) -> Result<Row<'a>, NoMemory>
    ensures { IfOk result (λ row. row ≡ row_of kind id.now clause.now) }
{
    let mut value = Vec::new(alloc);
    push_value(&mut value, &clause.value)?;
    value.shrink_to_fit();
    let mut block = Vec::new(alloc);
    push_block(&mut block, clause.qualifiers.as_slice())?;
    block.shrink_to_fit();
    let target = last_id(alloc, &clause.value)?;
    Ok(Row {
        id,
        place: clause_place(kind, clause),
        tag: &clause.tag,
        value: Bytes::from_vec(value),
        block: Bytes::from_vec(block),
        target,
        is_name: is_name(clause),
    })
}
