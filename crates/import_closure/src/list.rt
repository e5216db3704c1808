//! The list of files: the inputs, and then what the files import.
ghost use Rattle.std.specs.Prelude.{◌≡◌, IfOk, OnOk};
ghost use Rattle.std.specs.Option.{option_copied};
ghost use Rattle.import_closure.specs.Imports.{import_value};
ghost use Rattle.import_closure.specs.List as spec;
ghost use Rattle.import_closure.specs.inner.Listing.{AddsAsked, AddsClauses, AddsImports, AddsValue, listed_in};

use crate::SourceFile;
use catalog_file::import_name;
use indexmap::IndexMap;
use obo_clause::Value;
use obo_frames::Placed;
use obo_tags::FrameKind;
use rel_io::{Bytes, Dup, NoMemory};
use std::alloc::Global;
use std::collections::BTreeMap;

/// Why a file is on the list.
#[derive(PartialEq, Eq, Drop)]
pub enum Asker {
    /// It is an input.
    Input,
    /// It is imported, first by this clause.
    Import {
        /// The name of the file in which the clause stands.
        file: Bytes,
        /// The line of the clause, from 1.
        line: u32,
        /// What the clause says.
        value: Bytes,
    },
}

/// The inputs in their order, without repeats.
pub fn listed_inputs(alloc: Global, inputs: &[Bytes]) -> Result<IndexMap<Bytes, Asker>, NoMemory>
    ensures { IfOk result (λ list. listed_in list.entries ≡ spec.inputs_listed inputs.now) }
{
    let mut list = IndexMap::new(alloc);
    for input in inputs {
        let name = input.copy(alloc)?;
        add_file(&mut list, name, Asker::Input)?;
    }
    Ok(list)
}

/// What a file imports, each unless it is on the list already.
pub fn add_imports(
    alloc: Global,
    list: &mut IndexMap<Bytes, Asker>,
    names: &BTreeMap<Bytes, Bytes>,
    source: &SourceFile,
) -> Result<(), NoMemory>
    ensures { OnOk result (AddsImports names.now source.now list.old.entries list.new.entries) }
{
    add_clauses(alloc, list, names, &source.name, source.document.as_slice())
}

/// What the clauses of a file import, each unless it is on the list already.
fn add_clauses(
    alloc: Global,
    list: &mut IndexMap<Bytes, Asker>,
    names: &BTreeMap<Bytes, Bytes>,
    file: &Bytes,
    placed: &[Placed],
) -> Result<(), NoMemory>
    ensures { OnOk result (AddsClauses names.now file.now placed.now list.old.entries list.new.entries) }
{
    for one in placed {
        add_import(alloc, list, names, file, one)?;
    }
    Ok(())
}

/// What a clause of a file imports, unless it is on the list already.
fn add_import(
    alloc: Global,
    list: &mut IndexMap<Bytes, Asker>,
    names: &BTreeMap<Bytes, Bytes>,
    file: &Bytes,
    one: &Placed,
) -> Result<(), NoMemory>
    ensures { OnOk result (AddsAsked names.now file.now one.now list.old.entries list.new.entries) }
{
    match import_value(one) {
        Some(value) => add_value(alloc, list, names, file, one.line, value),
        None => Ok(()),
    }
}

/// What a clause with this value imports, unless it is on the list already.
fn add_value(
    alloc: Global,
    list: &mut IndexMap<Bytes, Asker>,
    names: &BTreeMap<Bytes, Bytes>,
    file: &Bytes,
    line: u32,
    value: &Bytes,
) -> Result<(), NoMemory>
    ensures { OnOk result (AddsValue names.now file.now line value.now list.old.entries list.new.entries) }
{
    let name = import_name(alloc, names, file, value)?;
    let file = file.copy(alloc)?;
    let value = value.copy(alloc)?;
    add_file(list, name, Asker::Import { file, line, value })
}

/// The value of an `import` clause of the header.
fn import_value(one: &Placed) -> Option<&Bytes>
    ensures { option_copied result ≡ import_value one.now }
{
    if !matches!(one.frame, FrameKind::Header)
        || one.clause.tag.as_slice() != b"import".as_slice()
    {
        return None;
    }
    match &one.clause.value {
        Value::Id(value) => Some(value),
        _ => None,
    }
}

/// One file more, unless its name is on the list.
fn add_file(list: &mut IndexMap<Bytes, Asker>, name: Bytes, asker: Asker) -> Result<(), NoMemory>
    ensures { OnOk result (listed_in list.new.entries ≡ spec.with_new (listed_in list.old.entries) (spec.listed name asker)) }
{
    if list.contains_key(&name) {
        return Ok(());
    }
    drop(list.insert(name, asker)?);
    Ok(())
}
