//! The names that the catalog has.
ghost use Rattle.std.specs.Prelude.{◌≡◌, ◌+◌, ◌^◌, ◌<◌, Some, length};
ghost use Rattle.std.specs.Option.{option_copied};
ghost use Rattle.rel_io.specs.FolderState.{NoCountFell};
ghost use Rattle.import_closure.specs.inner.Turns.{IsCatalog, ReadsNames};

use crate::unread::{refused, unread};
use crate::{Asker, LoadFault, read_file};
use catalog_file::{CatalogFault, name_table, read_catalog};
use rel_io::{Bytes, Folder, Limits};
use std::alloc::Global;
use std::collections::BTreeMap;

/// Reads the catalog, if there is one.
pub fn read_names<F: Folder>(
    alloc: Global,
    folder: &mut F,
    catalog: Option<&Bytes>,
    limits: &Limits,
) -> Result<BTreeMap<Bytes, Bytes>, LoadFault>
    requires few { limits.now.bytes + 1 < 2 ^ 32 }
    ensures reads { ReadsNames limits.now (option_copied catalog.entry) (F.state folder.old) result (F.state folder.new) }
    ensures holds { (F.state folder.new).holds ≡ (F.state folder.old).holds }
    ensures counts { NoCountFell (F.state folder.old) (F.state folder.new) }
{
    match catalog {
        Some(name) => read_named(alloc, folder, name, limits),
        None => Ok(BTreeMap::new(alloc)),
    }
}

/// Reads the catalog of this name.
fn read_named<F: Folder>(
    alloc: Global,
    folder: &mut F,
    name: &Bytes,
    limits: &Limits,
) -> Result<BTreeMap<Bytes, Bytes>, LoadFault>
    requires few { limits.now.bytes + 1 < 2 ^ 32 }
    ensures reads { ReadsNames limits.now (Some name.now) (F.state folder.old) result (F.state folder.new) }
    ensures holds { (F.state folder.new).holds ≡ (F.state folder.old).holds }
    ensures counts { NoCountFell (F.state folder.old) (F.state folder.new) }
{
    match read_file(alloc, folder, name, limits.bytes) {
        Ok(bytes) => names_in(alloc, name, &bytes, limits.line),
        Err(fault) => Err(unread(alloc, fault, name, &Asker::Input, limits.bytes)),
    }
}

/// The names of a catalog with these bytes.
fn names_in(
    alloc: Global,
    name: &Bytes,
    bytes: &Bytes,
    line_limit: u32,
) -> Result<BTreeMap<Bytes, Bytes>, LoadFault>
    requires { length bytes.now + 1 < 2 ^ 32 }
    ensures { IsCatalog line_limit name.now bytes.now result }
{
    match read_catalog(alloc, bytes.as_slice(), line_limit) {
        Ok(lines) => {
            let names = name_table(alloc, lines.into_vec())?;
            Ok(names)
        }
        Err(CatalogFault::Refused { line }) => Err(refused(alloc, name, line)),
        Err(CatalogFault::NoMemory) => Err(LoadFault::NoMemory),
    }
}
