//! Default namespaces are added to the names without one.
ghost use Rattle.std.specs.Prelude.{[], ◌++◌, OnOk};
ghost use Rattle.std.specs.List.{flat_map};
ghost use Rattle.std.specs.Option.{option_to_list};
ghost use Rattle.owl_ontology.specs.Ontology.{axioms_of};
ghost use Rattle.obo_to_owl.specs.inner.Adding.{AreAdded};
ghost use Rattle.obo_to_owl.specs.inner.Spacing.{spaces_in, spaces_with};

use crate::names::{add_each, kept_names, lines_of, names_without, spaced_names};
use crate::rows::Row;
use crate::situation::Situation;
use crate::spaces::{kept_default, least_default};
use owl_ontology::Ontology;
use rel_io::{Bytes, NoMemory};
use std::alloc::Global;

/// Adds the least default namespace to each declared name that has none, where there is one.
pub fn add_spaces(
    alloc: Global,
    file: u32,
    situation: &Situation,
    rows: &[Row],
    left: &[Row],
    ontology: &mut Ontology,
) -> Result<(), NoMemory>
    ensures { OnOk result (AreAdded ontology.old ontology.new
        (spaces_in file situation.now rows.now left.now (axioms_of ontology.old.entries))) }
{
    let kept = kept_default(alloc, left)?;
    let space = least_default(alloc, kept, ontology)?;
    add_default(alloc, file, space, situation, rows, left, ontology)?;
    Ok(())
}

/// Adds a namespace, where there is one, to each declared name that has none.
fn add_default(
    alloc: Global,
    file: u32,
    space: Option<Bytes>,
    situation: &Situation,
    rows: &[Row],
    left: &[Row],
    ontology: &mut Ontology,
) -> Result<(), NoMemory>
    ensures { OnOk result (AreAdded ontology.old ontology.new (flat_map
        (spaces_with file situation.now rows.now left.now (axioms_of ontology.old.entries)) (option_to_list space))) }
{
    match space {
        Some(space) => add_space(alloc, file, &space, situation, rows, left, ontology),
        None => Ok(()),
    }
}

/// Adds this namespace to each declared name that has none.
fn add_space(
    alloc: Global,
    file: u32,
    space: &Bytes,
    situation: &Situation,
    rows: &[Row],
    left: &[Row],
    ontology: &mut Ontology,
) -> Result<(), NoMemory>
    ensures { OnOk result (AreAdded ontology.old ontology.new
        (spaces_with file situation.now rows.now left.now (axioms_of ontology.old.entries) space.now ++ [])) }
{
    let kept = kept_names(alloc, situation, left)?;
    let spaced = spaced_names(alloc, kept, ontology)?;
    let names = names_without(alloc, &spaced, ontology)?;
    let lines = lines_of(alloc, situation, rows)?;
    add_each(alloc, file, space, &lines, names.as_slice(), ontology)?;
    Ok(())
}
