//! Annotations taken out of a list, by what each of them is as a part of a clause, and the ones that are left.
ghost use Rattle.std.specs.Prelude.{◌≡◌, ◌++◌, IfOk, OnOk};
ghost use Rattle.std.specs.Option.{option_map, option_or, option_to_list};
ghost use Rattle.clause_printer.specs.Printing.{xref_text};
ghost use Rattle.text_sets.specs.Parts.{each_some, take_all, take_one};
ghost use Rattle.text_sets.specs.Sorted.{sorted_by};
ghost use Rattle.obo_notes.specs.Context.{writing_in};
ghost use Rattle.obo_notes.specs.Forms.{first_part};
ghost use Rattle.obo_notes.specs.Keys.{qualifier_of};
ghost use Rattle.obo_notes.specs.Notes.{qualifiers_of};
ghost use Rattle.obo_notes.specs.Parts as spec;
ghost use Rattle.obo_notes.specs.inner.Taking.{left_after, left_by};

use crate::keys::qualifier_of;
use crate::parts::{scope_of, text_of, type_of, xref_of};
use crate::sorting::sorted;
use obo_clause::{Qualifier, Scope, Xref};
use owl_axioms::Side;
use rel_io::{Bytes, Dup, Items, NoMemory};
use std::alloc::Global;

/// The entries of an xref list in printed order, and the annotations that are none.
pub fn take_xrefs(alloc: Global, sides: &[Side]) -> Result<(Items<Xref>, Vec<Side>), NoMemory>
    ensures parts { IfOk result (λ taken. taken.0 ≡ sorted_by xref_text (take_all spec.xref_of sides.now).parts) }
    ensures rest { IfOk result (λ taken. taken.1.items ≡ (take_all spec.xref_of sides.now).rest) }
{
    let (xrefs, rest) = xrefs_and_rest(alloc, sides)?;
    let xrefs = sorted(alloc, xrefs)?;
    Ok((xrefs, rest))
}

/// The entries of an xref list in the order of the annotations, and the annotations that are none.
fn xrefs_and_rest(alloc: Global, sides: &[Side]) -> Result<(Vec<Xref>, Vec<Side>), NoMemory>
    ensures parts { IfOk result (λ taken. taken.0.items ≡ (take_all spec.xref_of sides.now).parts) }
    ensures rest { IfOk result (λ taken. taken.1.items ≡ (take_all spec.xref_of sides.now).rest) }
{
    let mut xrefs = Vec::new(alloc);
    let mut rest = Vec::new(alloc);
    for side in sides {
        take_xref(alloc, &mut xrefs, &mut rest, side)?;
    }
    Ok((xrefs, rest))
}

/// Puts one more annotation to the entries, or to the ones that are left.
fn take_xref(
    alloc: Global,
    xrefs: &mut Vec<Xref>,
    rest: &mut Vec<Side>,
    side: &Side,
) -> Result<(), NoMemory>
    ensures parts { OnOk result (xrefs.new.items ≡ xrefs.old.items ++ option_to_list (spec.xref_of side.now)) }
    ensures rest { OnOk result (rest.new.items ≡ rest.old.items ++ left_by (spec.xref_of side.now) side.now) }
{
    match xref_of(alloc, side)? {
        Some(xref) => xrefs.push(xref)?,
        None => rest.push(side.copy(alloc)?)?,
    }
    Ok(())
}

/// The first annotation that is a text of the property, and the others.
pub fn take_text(
    alloc: Global,
    property: &[u8],
    sides: &[Side],
) -> Result<(Option<Bytes>, Vec<Side>), NoMemory>
    ensures part { IfOk result (λ taken. taken.0 ≡ first_part (take_one (spec.text_of property.now) sides.now).parts) }
    ensures rest { IfOk result (λ taken. taken.1.items ≡ (take_one (spec.text_of property.now) sides.now).rest) }
{
    let mut found = None;
    let mut rest = Vec::new(alloc);
    for side in sides {
        let part = text_copied(alloc, property, side)?;
        take(alloc, &mut found, part, &mut rest, side)?;
    }
    Ok((found, rest))
}

/// The annotation as a text of the property.
fn text_copied(alloc: Global, property: &[u8], side: &Side) -> Result<Option<Bytes>, NoMemory>
    ensures { IfOk result (λ text. text ≡ spec.text_of property.now side.now) }
{
    match text_of(property, side) {
        Some(text) => Ok(Some(text.copy(alloc)?)),
        None => Ok(None),
    }
}

/// The first annotation that is a synonym type, and the others.
pub fn take_type(
    alloc: Global,
    space: &Bytes,
    sides: &[Side],
) -> Result<(Option<Bytes>, Vec<Side>), NoMemory>
    ensures part { IfOk result
        (λ taken. taken.0 ≡ first_part (take_one (spec.type_of (writing_in space.now)) sides.now).parts) }
    ensures rest { IfOk result
        (λ taken. taken.1.items ≡ (take_one (spec.type_of (writing_in space.now)) sides.now).rest) }
{
    let mut found = None;
    let mut rest = Vec::new(alloc);
    for side in sides {
        let part = type_of(alloc, space, side)?;
        take(alloc, &mut found, part, &mut rest, side)?;
    }
    Ok((found, rest))
}

/// The first annotation that is a scope, and the others.
pub fn take_scope(alloc: Global, sides: &[Side]) -> Result<(Option<Scope>, Vec<Side>), NoMemory>
    ensures part { IfOk result (λ taken. taken.0 ≡ first_part (take_one spec.scope_of sides.now).parts) }
    ensures rest { IfOk result (λ taken. taken.1.items ≡ (take_one spec.scope_of sides.now).rest) }
{
    let mut found = None;
    let mut rest = Vec::new(alloc);
    for side in sides {
        take(alloc, &mut found, scope_of(side), &mut rest, side)?;
    }
    Ok((found, rest))
}

/// Keeps the part of an annotation, where it has one and none was found before; else the annotation is left.
fn take<T: Drop>(
    alloc: Global,
    found: &mut Option<T>,
    part: Option<T>,
    rest: &mut Vec<Side>,
    side: &Side,
) -> Result<(), NoMemory>
    ensures found { OnOk result (found.new ≡ option_or found.old part) }
    ensures rest { OnOk result (rest.new.items ≡ rest.old.items ++ left_after found.old part side.now) }
{
    if found.is_none() && part.is_some() {
        *found = part;
        return Ok(());
    }
    rest.push(side.copy(alloc)?)?;
    Ok(())
}

/// The annotations as qualifiers in printed order, where each of them is one.
pub fn qualifiers_of(alloc: Global, sides: &[Side]) -> Result<Option<Items<Qualifier>>, NoMemory>
    ensures { IfOk result (λ qualifiers. qualifiers ≡ qualifiers_of sides.now) }
{
    match each_qualifier(alloc, sides)? {
        Some(qualifiers) => Ok(Some(sorted(alloc, qualifiers)?)),
        None => Ok(None),
    }
}

/// The annotations as qualifiers, where each of them is one.
fn each_qualifier(alloc: Global, sides: &[Side]) -> Result<Option<Vec<Qualifier>>, NoMemory>
    ensures { IfOk result (λ found. option_map (λ qualifiers. qualifiers.items) found ≡ each_some qualifier_of sides.now) }
{
    let mut qualifiers = Vec::new(alloc);
    for side in sides {
        match qualifier_of(alloc, side)? {
            Some(qualifier) => qualifiers.push(qualifier)?,
            None => return Ok(None),
        }
    }
    Ok(Some(qualifiers))
}
