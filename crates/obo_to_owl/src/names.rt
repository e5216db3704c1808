//! The names that get the default namespace, and the lines of their frames.
ghost use Rattle.std.specs.Prelude.{◌≡◌, ◌∷◌, [], ◌++◌, ◌||◌, IfOk, None, OnOk, false, filter, not};
ghost use Rattle.std.specs.List.{filter_map, flat_map, list_any};
ghost use Rattle.std.specs.Option.{option_map_or, option_to_list};
ghost use Rattle.text_sets.specs.Sets.{In};
ghost use Rattle.owl_axioms.specs.Proper.{AreProper, IsProper};
ghost use Rattle.owl_axioms.specs.declared.name.Name.{Name};
ghost use Rattle.owl_ontology.specs.Ontology.{axioms_of};
ghost use Rattle.obo_mapping.specs.Documents as spec;
ghost use Rattle.obo_to_owl.specs.inner.Adding.{AreAdded};
ghost use Rattle.obo_to_owl.specs.inner.Spacing.{entry_spaced, has_name, keep_line, least_onto, lesser_of, line_for, line_in, name_eq, name_kept, option_or_zero, spacing};

use crate::clauses::add;
use crate::groups::lesser;
use crate::misfit::has_tag;
use crate::rows::Row;
use crate::situation::Situation;
use crate::spaces::{add_name, declared_in, entity_of, has_name, keeps, spaced_in, spacing};
use hash_key::HashKey;
use indexmap::{IndexMap, IndexSet};
use owl_axioms::{Axiom, Name};
use owl_ontology::Ontology;
use rel_io::{Bytes, Dup, NoMemory};
use std::alloc::Global;

/// The names of the frames of clauses that give a namespace and are not translated.
pub fn kept_names(
    alloc: Global,
    situation: &Situation,
    left: &[Row],
) -> Result<IndexSet<Name, HashKey>, NoMemory>
    ensures { IfOk result (λ set. (x : Name) → has_name set x ≡
        list_any (name_eq x) (filter_map (name_kept situation.now) left.now)) }
{
    let mut names = IndexSet::with_hasher(alloc, situation.hash_key());
    for row in left {
        keep_name(alloc, &mut names, situation, row)?;
    }
    Ok(names)
}

/// Adds the name of the frame of a clause that gives a namespace.
fn keep_name(
    alloc: Global,
    names: &mut IndexSet<Name, HashKey>,
    situation: &Situation,
    row: &Row,
) -> Result<(), NoMemory>
    ensures { OnOk result ((x : Name) → has_name names.new x ≡
        (option_map_or (name_eq x) (name_kept situation.now row.now) false || has_name names.old x)) }
{
    match name_kept(alloc, situation, row)? {
        Some(name) => add_name(names, name),
        None => Ok(()),
    }
}

/// The name of the frame of a clause that gives a namespace.
fn name_kept(alloc: Global, situation: &Situation, row: &Row) -> Result<Option<Name>, NoMemory>
    ensures { IfOk result (λ name. name ≡ name_kept situation.now row.now) }
{
    if keeps(b"namespace", row.placed) {
        entity_of(alloc, situation, row)
    } else {
        Ok(None)
    }
}

/// The names that have a namespace, with others.
pub fn spaced_names(
    alloc: Global,
    kept: IndexSet<Name, HashKey>,
    ontology: &Ontology,
) -> Result<IndexSet<Name, HashKey>, NoMemory>
    ensures { IfOk result (λ set. (x : Name) → has_name set x ≡ (has_name kept x
        || list_any (name_eq x) (filter_map spec.is_namespace (axioms_of ontology.now.entries)))) }
{
    let mut names = kept;
    for at in 0..ontology.len() {
        space_name(alloc, &mut names, ontology.get(at))?;
    }
    Ok(names)
}

/// Adds the name that an axiom gives a namespace.
fn space_name(
    alloc: Global,
    names: &mut IndexSet<Name, HashKey>,
    said: &Axiom,
) -> Result<(), NoMemory>
    ensures { OnOk result ((x : Name) → has_name names.new x ≡
        (option_map_or (name_eq x) (spec.is_namespace said.now) false || has_name names.old x)) }
{
    match spaced_in(said) {
        Some(name) => {
            let name = name.copy(alloc)?;
            add_name(names, name)
        }
        None => Ok(()),
    }
}

/// The declared names that have no namespace.
pub fn names_without(
    alloc: Global,
    spaced: &IndexSet<Name, HashKey>,
    ontology: &Ontology,
) -> Result<Vec<Name>, NoMemory>
    ensures names { IfOk result (λ names. names.items ≡ filter (λ name. not (has_name spaced.now name))
        (filter_map spec.declared_in (axioms_of ontology.now.entries))) }
    ensures proper { AreProper (axioms_of ontology.now.entries) }
{
    let mut names = Vec::new(alloc);
    for at in 0..ontology.len() {
        push_name(alloc, &mut names, spaced, ontology.get(at))?;
    }
    Ok(names)
}

/// Appends the name that an axiom declares, where it has no namespace.
fn push_name(
    alloc: Global,
    names: &mut Vec<Name>,
    spaced: &IndexSet<Name, HashKey>,
    said: &Axiom,
) -> Result<(), NoMemory>
    ensures { OnOk result (names.new.items ≡ names.old.items
        ++ filter (λ name. not (has_name spaced.now name)) (option_to_list (spec.declared_in said.now))) }
{
    match declared_in(said) {
        Some(name) if !has_name(spaced, name) => {
            let name = name.copy(alloc)?;
            names.push(name)?;
            Ok(())
        }
        _ => Ok(()),
    }
}

/// The least line of the `id` clauses of each name.
pub fn lines_of(
    alloc: Global,
    situation: &Situation,
    rows: &[Row],
) -> Result<IndexMap<Name, u32, HashKey>, NoMemory>
    ensures { IfOk result (λ lines. (x : Name) → line_in lines x ≡
        least_onto None (filter_map (line_for situation.now x) rows.now)) }
{
    let mut lines = IndexMap::with_hasher(alloc, situation.hash_key());
    for row in rows {
        keep_line(alloc, &mut lines, situation, row)?;
    }
    Ok(lines)
}

/// Keeps the line of an `id` clause.
fn keep_line(
    alloc: Global,
    lines: &mut IndexMap<Name, u32, HashKey>,
    situation: &Situation,
    row: &Row,
) -> Result<(), NoMemory>
    ensures { OnOk result ((x : Name) → line_in lines.new x ≡
        least_onto (line_in lines.old x) (option_to_list (line_for situation.now x row.now))) }
{
    if !has_tag(b"id", row.placed) {
        return Ok(());
    }
    match entity_of(alloc, situation, row)? {
        Some(name) => keep_least(lines, name, row.placed.line),
        None => Ok(()),
    }
}

/// Keeps the least line of a name.
fn keep_least(
    lines: &mut IndexMap<Name, u32, HashKey>,
    name: Name,
    line: u32,
) -> Result<(), NoMemory>
    ensures { OnOk result ((x : Name) → line_in lines.new x ≡ keep_line x name line (line_in lines.old x)) }
{
    let least = least_with(lines, &name, line);
    lines.insert(name, least)?;
    Ok(())
}

/// The lesser of a line and that of a name.
fn least_with(lines: &IndexMap<Name, u32, HashKey>, name: &Name, line: u32) -> u32
    ensures { result ≡ lesser_of (line_in lines.now name.now) line }
{
    match lines.get(name) {
        Some(held) => lesser(line, *held),
        None => line,
    }
}

/// Adds the namespace to each of the names, with the line of its frame.
pub fn add_each(
    alloc: Global,
    file: u32,
    space: &Bytes,
    lines: &IndexMap<Name, u32, HashKey>,
    names: &[Name],
    ontology: &mut Ontology,
) -> Result<(), NoMemory>
    requires { (name : Name) → In name names.now → IsProper (spacing name space.now) }
    ensures { OnOk result (AreAdded ontology.old ontology.new
        (flat_map (λ name. entry_spaced file space.now lines.now name ∷ []) names.now)) }
{
    for name in names {
        add_one(alloc, file, space, lines, name, ontology)?;
    }
    Ok(())
}

/// Adds the namespace to a name.
fn add_one(
    alloc: Global,
    file: u32,
    space: &Bytes,
    lines: &IndexMap<Name, u32, HashKey>,
    name: &Name,
    ontology: &mut Ontology,
) -> Result<(), NoMemory>
    requires { IsProper (spacing name.now space.now) }
    ensures { OnOk result (AreAdded ontology.old ontology.new (entry_spaced file space.now lines.now name.now ∷ [])) }
{
    let line = line_of(lines, name);
    let name = name.copy(alloc)?;
    let said = spacing(alloc, name, space)?;
    add(ontology, said, file, line)
}

/// The line of a name; 0, where it has none.
fn line_of(lines: &IndexMap<Name, u32, HashKey>, name: &Name) -> u32
    ensures { result ≡ option_or_zero (line_in lines.now name.now) }
{
    match lines.get(name) {
        Some(line) => *line,
        None => 0,
    }
}
