//! The inputs: they are read and merged, and the report begins.
ghost use Rattle.std.specs.Prelude.{◌≡◌, ◌∷◌, [], ◌++◌, IfOk, List, Ok, Some, filter, length, map};
ghost use Rattle.rel_io.specs.FolderState.{Files, NoCountFell};
ghost use Rattle.owl_ontology.specs.Ontology.{axioms_of};
ghost use Rattle.import_merge.specs.declared.merged.FileNote.{FileNote};
ghost use Rattle.release_chain.specs.Answer.{AnswersAs};
ghost use Rattle.release_chain.specs.Ending.{Caused};
ghost use Rattle.import_closure.specs.Loading.{LoadsAs};
ghost use Rattle.import_merge.specs.Notes.{IsLoaded};
ghost use Rattle.release_chain.specs.Trace.{dropped_entry, fault_of_load, merged_trace, read_entry, sources_of};
ghost use Rattle.release_chain.specs.inner.Finish.{LoadEnds};
ghost use Rattle.release_chain.specs.inner.Work.{HasForms, IsAt};
ghost use Rattle.obo_mapping.specs.Back.{IsSpellable};

use crate::counting::counts_of;
use crate::work::{Work, noted};
use chain_words::Chain;
use hash_key::HashKey;
use import_closure::LoadFault;
use import_merge::{FileNote, Merged, load};
use obo_to_owl::Dropped;
use rel_io::{Bytes, Dup, Folder, Items, Limits, NoMemory};
use release_report::{Entry, Fault};
use std::alloc::Global;

/// Reads and merges the inputs.
pub fn load_inputs<F: Folder>(
    alloc: Global,
    hash_key: HashKey,
    folder: &mut F,
    chain: &Chain,
) -> Result<Work, Fault>
    ensures caused { Caused result (F.state folder.old) (F.state folder.new) }
    ensures counts { NoCountFell (F.state folder.old) (F.state folder.new) }
    ensures forms { IfOk result HasForms }
    ensures ends { (files : Files) → (F.state folder.old).holds ≡ Some files → LoadEnds files chain.now result (F.state folder.old).holds (F.state folder.new).holds }
{
    match load_files(alloc, hash_key, folder, chain) {
        Ok(merged) => merged_work(alloc, merged),
        Err(fault) => Err(load_fault(fault)),
    }
}

/// Reads and merges the files that a chain names, and what they import.
fn load_files<F: Folder>(
    alloc: Global,
    hash_key: HashKey,
    folder: &mut F,
    chain: &Chain,
) -> Result<Merged, LoadFault>
    ensures loads { LoadsAs IsLoaded (λ files. sources_of files chain.now) (F.state folder.old) result (F.state folder.new) }
    ensures holds { (F.state folder.new).holds ≡ (F.state folder.old).holds }
    ensures counts { NoCountFell (F.state folder.old) (F.state folder.new) }
    ensures forms { IfOk result (λ merged. IsSpellable merged.ontology.name (axioms_of merged.ontology.entries)) }
{
    let limits = Limits::release();
    let inputs = chain.inputs.as_slice();
    let catalog = chain.catalog.as_ref();
    load(alloc, hash_key, folder, inputs, catalog, &limits)
}

/// The state behind the inputs.
fn merged_work(alloc: Global, merged: Merged) -> Result<Work, Fault>
    requires forms { IsSpellable merged.ontology.name (axioms_of merged.ontology.entries) }
    ensures answer { AnswersAs IsAt (Ok (merged_trace merged.files merged.ontology)) result }
    ensures forms { IfOk result HasForms }
{
    let Merged { ontology, files } = merged;
    let names = names_of(alloc, files.as_slice())?;
    let entries = read_entries(alloc, files)?;
    let entries = noted(entries, Entry::Merged(counts_of(&ontology)))?;
    Ok(Work {
        ontology,
        files: names,
        entries,
    })
}

/// The names of the files.
fn names_of(alloc: Global, notes: &[FileNote]) -> Result<Items<Bytes>, NoMemory>
    ensures { IfOk result (λ names. names ≡ map (λ (note : FileNote). note.name) notes.now) }
{
    let mut names = Vec::with_capacity(alloc, notes.len())?;
    for note in notes {
        let name = note.name.copy(alloc)?;
        names.push(name)?;
    }
    Ok(Items::from_vec(names))
}

/// What the report says of the files.
fn read_entries(alloc: Global, notes: Items<FileNote>) -> Result<Items<Entry>, NoMemory>
    ensures { IfOk result (λ entries. entries ≡ map read_entry notes) }
{
    let notes = notes.into_vec();
    let mut entries = Vec::with_capacity(alloc, notes.len())?;
    for note in notes {
        let entry = read_entry(alloc, note)?;
        entries.push(entry)?;
    }
    Ok(Items::from_vec(entries))
}

/// What the report says of a file.
fn read_entry(alloc: Global, note: FileNote) -> Result<Entry, NoMemory>
    ensures { IfOk result (λ entry. entry ≡ read_entry note) }
{
    let FileNote {
        name,
        frames,
        dropped,
    } = note;
    match dropped_entries(alloc, dropped) {
        Ok(dropped) => Ok(Entry::Read {
            name,
            frames,
            dropped,
        }),
        Err(NoMemory) => {
            drop(name);
            Err(NoMemory)
        }
    }
}

/// The lines and tags of the clauses that are not translated.
fn dropped_entries(alloc: Global, dropped: Items<Dropped>) -> Result<Items<(u32, Bytes)>, NoMemory>
    ensures { IfOk result (λ made. made ≡ map dropped_entry dropped) }
{
    let dropped = dropped.into_vec();
    let mut made = Vec::with_capacity(alloc, dropped.len())?;
    for report in dropped {
        let Dropped { line, tag } = report;
        made.push((line, tag))?;
    }
    Ok(Items::from_vec(made))
}

/// The fault of a run whose inputs are not loaded.
fn load_fault(fault: LoadFault) -> Fault
    ensures { result ≡ fault_of_load fault }
{
    match fault {
        LoadFault::MissingInput { name } => Fault::MissingInput { name },
        LoadFault::MissingImport { file, line, value } => Fault::MissingImport {
            file,
            line,
            value,
        },
        LoadFault::TooManyFiles { limit } => Fault::TooManyFiles { limit },
        LoadFault::TooManyBytes { name, limit } => Fault::TooManyBytes { name, limit },
        LoadFault::CatalogLine { file, line } => Fault::CatalogLine { file, line },
        LoadFault::ReadFault { name } => Fault::ReadFault { name },
        LoadFault::NotUtf8 { file, line } => Fault::NotUtf8 { file, line },
        LoadFault::LineTooLong { file, line } => Fault::LineTooLong { file, line },
        LoadFault::Syntax { file, line, kind } => Fault::Syntax { file, line, kind },
        LoadFault::NoId { file, line } => Fault::NoId { file, line },
        LoadFault::ShortGroup { file, line } => Fault::ShortGroup { file, line },
        LoadFault::NoMemory => Fault::NoMemory,
    }
}
