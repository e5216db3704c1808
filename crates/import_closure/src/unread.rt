//! The fault of a file that was not read, or is no document.
ghost use Rattle.std.specs.Prelude.{◌≡◌, IfOk};
ghost use Rattle.import_closure.specs.Closure.{fault_in, missing};
ghost use Rattle.import_closure.specs.declared.fault.LoadFault.TheVariants as load;
ghost use Rattle.import_closure.specs.inner.Turns.{IsFaultOr, unread_fault};

use crate::{Asker, FileFault, LoadFault};
use obo_frames::DocFault;
use rel_io::{Bytes, Dup, NoMemory};
use std::alloc::Global;

/// The fault of a file that was not read.
pub fn unread(alloc: Global, fault: FileFault, name: &Bytes, asker: &Asker, limit: u64) -> LoadFault
    ensures { IsFaultOr (unread_fault limit name.now asker.now fault) result }
{
    match unread_fault(alloc, fault, name, asker, limit) {
        Ok(fault) => fault,
        Err(_) => LoadFault::NoMemory,
    }
}

/// The fault of a file that was not read, if there is memory for it.
fn unread_fault(
    alloc: Global,
    fault: FileFault,
    name: &Bytes,
    asker: &Asker,
    limit: u64,
) -> Result<LoadFault, NoMemory>
    ensures { IfOk result (λ made. made ≡ unread_fault limit name.now asker.now fault) }
{
    match fault {
        FileFault::Missing => missing(alloc, name, asker),
        FileFault::ReadFault => name.copy(alloc).map(|name| LoadFault::ReadFault { name }),
        FileFault::TooManyBytes => name
            .copy(alloc)
            .map(|name| LoadFault::TooManyBytes { name, limit }),
        FileFault::NoMemory => Ok(LoadFault::NoMemory),
    }
}

/// The fault of a file that is not there.
fn missing(alloc: Global, name: &Bytes, asker: &Asker) -> Result<LoadFault, NoMemory>
    ensures { IfOk result (λ made. made ≡ missing name.now asker.now) }
{
    match asker {
        Asker::Input => name
            .copy(alloc)
            .map(|name| LoadFault::MissingInput { name }),
        Asker::Import { file, line, value } => missing_import(alloc, file, *line, value),
    }
}

/// The fault of an imported file that is not there.
fn missing_import(
    alloc: Global,
    file: &Bytes,
    line: u32,
    value: &Bytes,
) -> Result<LoadFault, NoMemory>
    ensures { IfOk result (λ made. made ≡ load.MissingImport file.now line value.now) }
{
    let file = file.copy(alloc)?;
    let value = value.copy(alloc)?;
    Ok(LoadFault::MissingImport { file, line, value })
}

/// The fault of a line of the catalog.
pub fn refused(alloc: Global, name: &Bytes, line: u32) -> LoadFault
    ensures { IsFaultOr (load.CatalogLine name.now line) result }
{
    match name.copy(alloc) {
        Ok(file) => LoadFault::CatalogLine { file, line },
        Err(_) => LoadFault::NoMemory,
    }
}

/// The fault of a file that is no document.
pub fn faulty(alloc: Global, fault: DocFault, name: &Bytes) -> LoadFault
    ensures { IsFaultOr (fault_in name.now fault) result }
{
    match name.copy(alloc) {
        Ok(file) => document_fault(fault, file),
        Err(_) => LoadFault::NoMemory,
    }
}

/// What is wrong with a document, as the fault of its file.
fn document_fault(fault: DocFault, file: Bytes) -> LoadFault
    ensures { result ≡ fault_in file fault }
{
    match fault {
        DocFault::NotUtf8 { line } => LoadFault::NotUtf8 { file, line },
        DocFault::LineTooLong { line } => LoadFault::LineTooLong { file, line },
        DocFault::Syntax { line, kind } => LoadFault::Syntax { file, line, kind },
        DocFault::NoId { line } => LoadFault::NoId { file, line },
        DocFault::ShortGroup { line } => LoadFault::ShortGroup { file, line },
        DocFault::NoMemory => LoadFault::NoMemory,
    }
}
