//! What the tables of this crate have in common: folders in memory, the names of inputs, and how faults are shown.
ghost use Rattle.std.specs.Prelude.{◌≤◌};

use document_examples::{bytes_of, is_copied, push};
use import_closure::LoadFault;
use rel_io::{Bytes, MemFolder, NoMemory};
use std::alloc::Global;

/// A word and what stands behind its blank.
pub fn next_word(text: &str) -> (&str, &str) {
    text.split_once(' ').unwrap_or((text, ""))
}

/// A folder with these files, which gives pieces of a length and fails at one call.
pub fn folder_with(
    alloc: Global,
    files: &str,
    piece: usize,
    call: u64,
) -> Result<MemFolder, NoMemory>
    requires { 1 ≤ piece }
{
    let mut held = Vec::new(alloc);
    for file in files.split("; ") {
        let (name, content) = file.split_once('=').unwrap_or((file, ""));
        let name = Bytes::from_slice(alloc, name.as_bytes())?;
        let content = Bytes::from_vec(bytes_of(alloc, content)?);
        held.push((name, content))?;
    }
    let mut failing = Vec::new(alloc);
    failing.push(call)?;
    Ok(MemFolder::new(alloc, held, piece, failing))
}

/// Names between commas.
pub fn names_in(alloc: Global, text: &str) -> Result<Vec<Bytes>, NoMemory> {
    let mut names = Vec::new(alloc);
    for name in text.split(',') {
        names.push(Bytes::from_slice(alloc, name.as_bytes())?)?;
    }
    Ok(names)
}

/// The name of a fault, its file, its number, and what else it has, where a copy is equal to it.
pub fn shown_fault(alloc: Global, fault: &LoadFault) -> Result<Vec<u8>, NoMemory> {
    let mut text = Vec::new(alloc);
    if !is_copied(alloc, fault)? {
        return Ok(text);
    }
    let (name, file, number) = parts_of(fault);
    push(&mut text, name)?;
    if let Some(file) = file {
        push(&mut text, b" ")?;
        push(&mut text, file.as_slice())?;
    }
    if let Some(number) = number {
        push(&mut text, format!(in alloc; " {number}")?.as_bytes())?;
    }
    match fault {
        LoadFault::MissingImport { value, .. } => {
            push(&mut text, b" ")?;
            push(&mut text, value.as_slice())?;
        }
        LoadFault::Syntax { kind, .. } => {
            push(&mut text, format!(in alloc; " {kind:?}")?.as_bytes())?
        }
        _ => {}
    }
    Ok(text)
}

/// The name of a fault, its file, and its number.
fn parts_of(fault: &LoadFault) -> (&'static [u8], Option<&Bytes>, Option<u64>) {
    match fault {
        LoadFault::MissingInput { name } => (b"MissingInput", Some(name), None),
        LoadFault::MissingImport { file, line, .. } => {
            (b"MissingImport", Some(file), Some(u64::from(*line)))
        }
        LoadFault::TooManyFiles { limit } => (b"TooManyFiles", None, Some(u64::from(*limit))),
        LoadFault::TooManyBytes { name, limit } => (b"TooManyBytes", Some(name), Some(*limit)),
        LoadFault::CatalogLine { file, line } => {
            (b"CatalogLine", Some(file), Some(u64::from(*line)))
        }
        LoadFault::ReadFault { name } => (b"ReadFault", Some(name), None),
        LoadFault::NotUtf8 { file, line } => (b"NotUtf8", Some(file), Some(u64::from(*line))),
        LoadFault::LineTooLong { file, line } => {
            (b"LineTooLong", Some(file), Some(u64::from(*line)))
        }
        LoadFault::Syntax { file, line, .. } => (b"Syntax", Some(file), Some(u64::from(*line))),
        LoadFault::NoId { file, line } => (b"NoId", Some(file), Some(u64::from(*line))),
        LoadFault::ShortGroup { file, line } => {
            (b"ShortGroup", Some(file), Some(u64::from(*line)))
        }
        LoadFault::NoMemory => (b"NoMemory", None, None),
    }
}
