//! Lists of dbxrefs, as `[PMID:1 "a paper", EX:2]`.
ghost use Rattle.std.specs.Prelude.{◌≡◌, ◌++◌, MatchResult, OnOk, IfOk, Ok, Err, length, suc};
ghost use Rattle.std.specs.Option.{option_copied};
ghost use Rattle.clause_reader.specs.inner.Results.{GivesWith};
ghost use Rattle.obo_clause.specs.Reading as read;

use crate::marks::{Class, behind_blanks, split_run, text_if_any, text_of, trim_end};
use crate::runs::{behind_sign, end_of_quotes};
use obo_clause::{LineFault, MarkedByte, SyntaxKind, Xref};
use rel_io::{Items, NoMemory};
use std::alloc::Global;

/// An entry of a list and what stands behind it.
#[derive(Clone, Copy)]
struct Slot<'a> {
    /// The entry without outer blanks. An empty one is skipped.
    id: &'a [MarkedByte],
    /// What stands between the quotes, if there are some.
    label: Option<&'a [MarkedByte]>,
    /// What stands behind the entry.
    rest: &'a [MarkedByte],
}

/// What stands in a list up to the next comma or the end.
#[tactic(auto, unfolding(obo_clause::specs::Reading::slot_at))]
fn slot_at(marks: &[MarkedByte]) -> Result<Slot<'_>, SyntaxKind>
    ensures { MatchResult result
        (λ slot. read.slot_at marks.now ≡ Ok (slot.id.now, option_copied slot.label, slot.rest.now))
        (λ one. read.slot_at marks.now ≡ Err one) }
{
    let (run, rest) = split_run(Class::Entry, marks);
    let id = trim_end(behind_blanks(run));
    match behind_sign(b'"', rest) {
        None => Ok(Slot {
            id,
            label: None,
            rest,
        }),
        Some(inside) => label_at(id, inside),
    }
}

/// An entry with a label, from behind the first `"` of that on.
fn label_at<'a>(id: &'a [MarkedByte], marks: &'a [MarkedByte]) -> Result<Slot<'a>, SyntaxKind>
    ensures { MatchResult result
        (λ slot. read.label_at id.now marks.now ≡ Ok (slot.id.now, option_copied slot.label, slot.rest.now))
        (λ one. read.label_at id.now marks.now ≡ Err one) }
{
    if id.is_empty() {
        return Err(SyntaxKind::XrefList);
    }
    let (label, rest) = end_of_quotes(marks)?;
    Ok(Slot {
        id,
        label: Some(label),
        rest: behind_blanks(rest),
    })
}

/// Appends the xref of an entry, unless that is empty.
fn push_xref(
    alloc: Global,
    xrefs: &mut Vec<Xref>,
    entry: &[MarkedByte],
    label: Option<&[MarkedByte]>,
) -> Result<(), NoMemory>
    ensures { OnOk result (xrefs.new.items ≡ xrefs.old.items ++ read.xrefs_of entry.now (option_copied label.entry)) }
{
    if entry.is_empty() {
        return Ok(());
    }
    let id = text_of(alloc, entry)?;
    let label = text_if_any(alloc, label)?;
    xrefs.push(Xref { id, label })?;
    Ok(())
}

/// The xrefs of a list from behind its `[` on, and what stands behind the list.
fn xrefs_in(alloc: Global, marks: &[MarkedByte]) -> Result<(Items<Xref>, &[MarkedByte]), LineFault>
    ensures { GivesWith (read.slots_from (suc (length marks.now)) marks.now) result }
{
    let mut xrefs = Vec::new(alloc);
    let mut rest = marks;
    // An entry and its comma are at least one mark.
    for _ in 0..marks.len() + 1 {
        let slot = slot_at(rest)?;
        push_xref(alloc, &mut xrefs, slot.id, slot.label)?;
        match behind_sign(b',', slot.rest) {
            None => return list_end(xrefs, slot.rest),
            Some(more) => rest = more,
        }
    }
    Err(LineFault::Syntax(SyntaxKind::XrefList))
}

/// A list with its last entry, at its size, where its end stands.
fn list_end(
    xrefs: Vec<Xref>,
    marks: &[MarkedByte],
) -> Result<(Items<Xref>, &[MarkedByte]), LineFault>
    ensures { GivesWith (read.list_end xrefs.items marks.now) result }
{
    match behind_sign(b']', marks) {
        None => Err(LineFault::Syntax(SyntaxKind::XrefList)),
        Some(rest) => {
            let mut xrefs = xrefs;
            xrefs.shrink_to_fit();
            Ok((Items::from_vec(xrefs), rest))
        }
    }
}

/// The list behind blanks, if there is one, and the rest. An absent list is an empty one.
#[tactic(auto, unfolding(obo_clause::specs::Reading::list_at))]
pub fn list_at(
    alloc: Global,
    marks: &[MarkedByte],
) -> Result<(Items<Xref>, &[MarkedByte]), LineFault>
    ensures { GivesWith (read.list_at marks.now) result }
{
    match behind_sign(b'[', behind_blanks(marks)) {
        None => Ok((Items::from_vec(Vec::new(alloc)), marks)),
        Some(inside) => xrefs_in(alloc, inside),
    }
}
