//! The names of frames.
ghost use Rattle.std.specs.Prelude.{◌≡◌, IfOk, OnOk};
ghost use Rattle.std.specs.BTreeMap.{get};
ghost use Rattle.std.specs.Option.{option_copied};
ghost use Rattle.text_sets.specs.Sorted.{text_cmp};
ghost use Rattle.obo_text.specs.inner.Names.{look_in};
ghost use Rattle.obo_text.specs.inner.Rows.{AddsName, TellsNames, looked_up, one_held, with_name};

use crate::clauses::target_kind;
use crate::rows::Row;
use obo_tags::FrameKind;
use rel_io::{Bytes, Dup, NoMemory};
use std::alloc::Global;
use std::collections::BTreeMap;

/// What names a frame has.
#[derive(Drop)]
pub enum Named {
    /// One, as it is printed.
    One(Bytes),
    /// More than one.
    Many,
}

/// The names of the frames of each kind, by their ids.
#[derive(Drop)]
pub struct Names {
    /// Those of Terms.
    pub terms: BTreeMap<Bytes, Named>,
    /// Those of Typedefs.
    pub typedefs: BTreeMap<Bytes, Named>,
    /// Those of Instances.
    pub instances: BTreeMap<Bytes, Named>,
}

/// The names that the rows give.
pub fn names_of(alloc: Global, rows: &[Row]) -> Result<BTreeMap<Bytes, Named>, NoMemory>
    ensures { IfOk result (TellsNames rows.now) }
{
    let mut names = BTreeMap::new(alloc);
    for row in rows {
        add_row(alloc, &mut names, row)?;
    }
    Ok(names)
}

/// One row more.
fn add_row(alloc: Global, names: &mut BTreeMap<Bytes, Named>, row: &Row) -> Result<(), NoMemory>
    ensures { OnOk result (AddsName names.old names.new row.now) }
{
    if !row.is_name {
        return Ok(());
    }
    let id = row.id.copy(alloc)?;
    let held = with_name(alloc, names.get(row.id), &row.value)?;
    drop(names.insert(id, held)?);
    Ok(())
}

/// A frame with a name more.
fn with_name(alloc: Global, held: Option<&Named>, name: &Bytes) -> Result<Named, NoMemory>
    ensures { IfOk result (λ named. named ≡ with_name (option_copied held.entry) name.now) }
{
    match held {
        None => Ok(Named::One(name.copy(alloc)?)),
        Some(_) => Ok(Named::Many),
    }
}

/// The printed name that stands behind a row, if one does.
pub fn name_behind<'a>(names: &'a Names, kind: FrameKind, row: &Row) -> Option<&'a Bytes>
    ensures { option_copied result ≡ looked_up (look_in names.now) kind row.now }
{
    match (target_kind(kind, row.tag.as_slice()), &row.target) {
        (Some(target), Some(id)) => name_at(names, target, id),
        _ => None,
    }
}

/// The printed name of a frame, if it has exactly one.
fn name_at<'a>(names: &'a Names, kind: FrameKind, id: &Bytes) -> Option<&'a Bytes>
    ensures { option_copied result ≡ look_in names.now kind id.now }
{
    match kind {
        FrameKind::Header => None,
        FrameKind::Term => one_name(&names.terms, id),
        FrameKind::Typedef => one_name(&names.typedefs, id),
        FrameKind::Instance => one_name(&names.instances, id),
    }
}

/// The one name that is held for the id.
fn one_name<'a>(names: &'a BTreeMap<Bytes, Named>, id: &Bytes) -> Option<&'a Bytes>
    ensures { option_copied result ≡ one_held (get text_cmp names.now id.now) }
{
    match names.get(id) {
        Some(Named::One(name)) => Some(name),
        _ => None,
    }
}
