//! `read_files`: the inputs and what they import, one turn after the other.
ghost use Rattle.std.specs.Prelude.{◌≡◌, ◌+◌, ◌^◌, ◌<◌, ◌≤◌, IfOk, List, length};
ghost use Rattle.std.specs.Option.{option_copied};
ghost use Rattle.indexmap.specs.IndexMap.{index_map_len};
ghost use Rattle.rel_io.specs.FolderState.{NoCountFell};
ghost use Rattle.catalog_file.specs.Names.{TellsNames};
ghost use Rattle.catalog_file.specs.declared.catalog.CatalogLine.{CatalogLine};
ghost use Rattle.obo_frames.specs.Feeding.{finished};
ghost use Rattle.import_closure.specs.Closure.{closure, reading, setting};
ghost use Rattle.import_closure.specs.Loading.{LoadsAs, Same};
ghost use Rattle.import_closure.specs.List.{listed};
ghost use Rattle.import_closure.specs.inner.Turns.{HasTurn, IsSource, TakesTurn};

use crate::catalog::read_names;
use crate::feed::{Fed, feed_file};
use crate::list::{add_imports, listed_inputs};
use crate::unread::{faulty, unread};
use crate::{Asker, LoadFault};
use indexmap::IndexMap;
use obo_frames::Document;
use rel_io::{Bytes, Dup, Folder, Items, Limits};
use std::alloc::Global;
use std::collections::BTreeMap;

/// A file that was read.
#[derive(Drop)]
pub struct SourceFile {
    /// Its name.
    pub name: Bytes,
    /// The document that it is.
    pub document: Document,
}

/// The turn of a file.
#[derive(Drop)]
pub struct Turn {
    /// The file.
    pub source: SourceFile,
    /// How many bytes it has.
    pub size: u64,
}

/// Reads the catalog, if there is one, the inputs and what they import. The list of files begins with the inputs, without
/// repeats; each file behind its turn appends what it imports that is not on the list yet. The files are read in the order
/// of the list, each to its end, by reads into 65,536 bytes. The first refusal is answered: of the catalog; of a file its place
/// in the list, that it is not there, that it has too many bytes with those before it, and then the first fault of its
/// document. Names are looked up in a table, so the time goes by the bytes that are read. No file is held whole as bytes: of
/// each, what is read is fed to its document.
pub fn read_files<F: Folder>(
    alloc: Global,
    folder: &mut F,
    inputs: &[Bytes],
    catalog: Option<&Bytes>,
    limits: &Limits,
) -> Result<Items<SourceFile>, LoadFault>
    requires few { limits.now.bytes + 1 < 2 ^ 32 }
    ensures reads { LoadsAs Same (λ files. reading files inputs.now (option_copied catalog.entry) limits.now) (F.state folder.old) result (F.state folder.new) }
    ensures few { IfOk result (λ sources. length sources ≤ limits.now.files) }
    ensures holds { (F.state folder.new).holds ≡ (F.state folder.old).holds }
    ensures counts { NoCountFell (F.state folder.old) (F.state folder.new) }
{
    let names = read_names(alloc, folder, catalog, limits)?;
    read_listed(alloc, folder, inputs, &names, limits)
}

/// Reads the inputs and what they import.
fn read_listed<F: Folder>(
    alloc: Global,
    folder: &mut F,
    inputs: &[Bytes],
    names: &BTreeMap<Bytes, Bytes>,
    limits: &Limits,
) -> Result<Items<SourceFile>, LoadFault>
    requires few { limits.now.bytes + 1 < 2 ^ 32 }
    ensures reads { (lines : List CatalogLine) → TellsNames lines names.now
        → LoadsAs Same (λ files. closure (setting files lines limits.now) inputs.now) (F.state folder.old) result (F.state folder.new) }
    ensures few { IfOk result (λ sources. length sources ≤ limits.now.files) }
    ensures holds { (F.state folder.new).holds ≡ (F.state folder.old).holds }
    ensures counts { NoCountFell (F.state folder.old) (F.state folder.new) }
{
    let mut list = listed_inputs(alloc, inputs)?;
    let mut sources = Vec::new(alloc);
    let mut left = limits.bytes;
    'turns: while sources.len() < list.len() {
        let Turn { source, size } = take_turn(alloc, folder, &list, sources.len(), left, limits)?;
        add_imports(alloc, &mut list, names, &source)?;
        sources.push(source)?;
        left -= size;
    }
    drop(list);
    Ok(Items::from_vec(sources))
}

/// The turn of the file at a place of the list.
fn take_turn<F: Folder>(
    alloc: Global,
    folder: &mut F,
    list: &IndexMap<Bytes, Asker>,
    at: usize,
    left: u64,
    limits: &Limits,
) -> Result<Turn, LoadFault>
    requires within { at < index_map_len list.now }
    requires few { left + 1 < 2 ^ 32 }
    ensures turn { HasTurn limits.now left list.now.entries at (F.state folder.old) result (F.state folder.new) }
    ensures holds { (F.state folder.new).holds ≡ (F.state folder.old).holds }
    ensures counts { NoCountFell (F.state folder.old) (F.state folder.new) }
{
    if at >= limits.files as usize {
        return Err(LoadFault::TooManyFiles {
            limit: limits.files,
        });
    }
    let (name, asker) = list.get_index(at).unwrap();
    read_source(alloc, folder, name, asker, left, limits)
}

/// Reads a file as a document.
fn read_source<F: Folder>(
    alloc: Global,
    folder: &mut F,
    name: &Bytes,
    asker: &Asker,
    left: u64,
    limits: &Limits,
) -> Result<Turn, LoadFault>
    requires few { left + 1 < 2 ^ 32 }
    ensures turn { TakesTurn limits.now left (listed name.now asker.now) (F.state folder.old) result (F.state folder.new) }
    ensures holds { (F.state folder.new).holds ≡ (F.state folder.old).holds }
    ensures counts { NoCountFell (F.state folder.old) (F.state folder.new) }
{
    match feed_file(alloc, folder, name, left, limits.line) {
        Ok(fed) => source_of(alloc, name, fed),
        Err(fault) => Err(unread(alloc, fault, name, asker, limits.bytes)),
    }
}

/// The document of a file that was fed.
fn source_of(alloc: Global, name: &Bytes, fed: Fed) -> Result<Turn, LoadFault>
    ensures { IsSource name.now (finished fed.feeder) fed.size result }
{
    let Fed { feeder, size } = fed;
    match feeder.finish() {
        Ok(document) => {
            let name = name.copy(alloc)?;
            Ok(Turn {
                source: SourceFile { name, document },
                size,
            })
        }
        Err(fault) => Err(faulty(alloc, fault, name)),
    }
}
