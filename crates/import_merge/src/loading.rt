//! `load`: the ontology of a run's files; and that of one file alone.
ghost use Rattle.std.specs.Prelude.{◌≡◌, ◌+◌, ◌^◌, ◌<◌, [], ◌∷◌, IfOk, OnOk, length};
ghost use Rattle.std.specs.Option.{option_copied};
ghost use Rattle.rel_io.specs.FolderState.{NoCountFell};
ghost use Rattle.owl_ontology.specs.Ontology.{axioms_of};
ghost use Rattle.obo_mapping.specs.Back.{IsSpellable};
ghost use Rattle.import_closure.specs.Closure.{reading};
ghost use Rattle.import_closure.specs.Loading.{LoadsAs};
ghost use Rattle.import_merge.specs.Merged.{IsMerged};
ghost use Rattle.import_merge.specs.Notes.{IsLoaded, file_note};
ghost use Rattle.import_merge.specs.inner.Joining.{Joins, KeepsSpelling};

use crate::frames::frame_count;
use crate::joining::join;
use crate::{FileNote, Merged};
use hash_key::HashKey;
use import_closure::{LoadFault, SourceFile, read_files};
use owl_ontology::Ontology;
use rel_io::{Bytes, Dup, Folder, Items, Limits, NoMemory};
use std::alloc::Global;

/// The ontology of the inputs and what they import, with a note of each file, in the order in which they are read; or the
/// first refusal of `read_files`. The first file's ontology is taken over, and the axioms of the others are moved into it,
/// so the time goes by the bytes that are read, but for sorts.
pub fn load<F: Folder>(
    alloc: Global,
    hash_key: HashKey,
    folder: &mut F,
    inputs: &[Bytes],
    catalog: Option<&Bytes>,
    limits: &Limits,
) -> Result<Merged, LoadFault>
    requires few { limits.now.bytes + 1 < 2 ^ 32 }
    ensures loads { LoadsAs IsLoaded (λ files. reading files inputs.now (option_copied catalog.entry) limits.now) (F.state folder.old) result (F.state folder.new) }
    ensures spellable { IfOk result (λ merged. IsSpellable merged.ontology.name (axioms_of merged.ontology.entries)) }
    ensures holds { (F.state folder.new).holds ≡ (F.state folder.old).holds }
    ensures counts { NoCountFell (F.state folder.old) (F.state folder.new) }
{
    let sources = read_files(alloc, folder, inputs, catalog, limits)?;
    let _few = file_limit(limits);
    let merged = merged(alloc, hash_key, sources.as_slice())?;
    Ok(merged)
}

/// How many files there may be. That is a number of 32 bits.
fn file_limit(limits: &Limits) -> u32
    ensures is { result ≡ limits.now.files }
    ensures small { result < 2 ^ 32 }
{
    limits.files
}

/// The ontology of files, with a note of each.
fn merged(alloc: Global, hash_key: HashKey, sources: &[SourceFile]) -> Result<Merged, NoMemory>
    requires few { length sources.now < 2 ^ 32 }
    ensures loaded { IfOk result (IsLoaded sources.now) }
    ensures spellable { IfOk result (λ merged. IsSpellable merged.ontology.name (axioms_of merged.ontology.entries)) }
{
    let mut ontology = Ontology::new(alloc, hash_key, None)?;
    let mut files = Vec::with_capacity(alloc, sources.len())?;
    for place in 0..sources.len() {
        let note = join_file(alloc, &mut ontology, &sources[place], place as u32)?;
        files.push(note)?;
    }
    let files = Items::from_vec(files);
    Ok(Merged { ontology, files })
}

/// The ontology of one file alone, with a note of it.
pub fn merge_file(
    alloc: Global,
    hash_key: HashKey,
    source: &SourceFile,
) -> Result<(Ontology, FileNote), NoMemory>
    ensures merged { IfOk result (λ made. IsMerged (source.now ∷ []) made.0) }
    ensures note { IfOk result (λ made. made.1 ≡ file_note source.now) }
    ensures spellable { IfOk result (λ made. IsSpellable made.0.name (axioms_of made.0.entries)) }
{
    let mut ontology = Ontology::new(alloc, hash_key, None)?;
    let note = join_file(alloc, &mut ontology, source, 0)?;
    Ok((ontology, note))
}

/// Merges a file into the ontology of those before it, and notes what it has.
fn join_file(
    alloc: Global,
    ontology: &mut Ontology,
    source: &SourceFile,
    place: u32,
) -> Result<FileNote, NoMemory>
    ensures joins { OnOk result (Joins place source.now.document ontology.old ontology.new) }
    ensures spelling { OnOk result (KeepsSpelling ontology.old ontology.new) }
    ensures note { IfOk result (λ note. note ≡ file_note source.now) }
{
    let dropped = join(alloc, ontology, &source.document, place)?;
    let frames = frame_count(alloc, &source.document)?;
    let name = source.name.copy(alloc)?;
    Ok(FileNote {
        name,
        frames,
        dropped,
    })
}
