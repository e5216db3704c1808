//! How a row of a table of runs is played. It has which calls of the folder fail, from 0, how many bytes a read gives, and
//! which writes of the report and of the fault's text fail, with `-` for none; behind each `; ` the words, as `words` writes
//! them, and the files that are there before, as `NAME=TEXT`.
//!
//! What is answered is the status, the report and the fault's text; behind each `; ` a file that the words name as an
//! output, as `NAME=TEXT` or `NAME missing`; and each file that was there and is another now, as `NAME changed`.
ghost use Rattle.std.specs.Prelude.{◌≤◌};

use super::words::words_of;
use document_examples::{bytes_of, is_copied, push};
use hash_key::HashKey;
use rel_io::{Bytes, MemFolder, MemSink, NoMemory};
use release_chain::{Ended, release};
use std::alloc::Global;

/// How a row ends.
pub fn ending_of(alloc: Global, row: &str) -> Result<Vec<u8>, NoMemory> {
    let (head, rest) = row.split_once("; ").unwrap_or((row, ""));
    let (words, files) = rest.split_once("; ").unwrap_or((rest, ""));
    let (calls, head) = next_word(head);
    let (piece, head) = next_word(head);
    let (outs, errs) = next_word(head);
    let piece = piece.parse::<usize>().unwrap_or(1).max(1);
    let mut folder = folder_with(alloc, files, piece, calls)?;
    let mut out = MemSink::new(alloc, 2000, numbers_in(alloc, outs)?)?;
    let mut err = MemSink::new(alloc, 500, numbers_in(alloc, errs)?)?;
    let mut text = run(alloc, words, &mut folder, &mut out, &mut err)?;
    push_part(&mut text, out.bytes())?;
    push_part(&mut text, err.bytes())?;
    push_outputs(&mut text, &folder, words)?;
    push_changed(alloc, &mut text, &folder, files)?;
    Ok(text)
}

/// A word and what stands behind its blank.
fn next_word(text: &str) -> (&str, &str) {
    text.split_once(' ').unwrap_or((text, ""))
}

/// A file's name and its text.
fn name_and_text(file: &str) -> (&str, &str) {
    file.split_once('=').unwrap_or((file, ""))
}

/// A folder with these files, which gives pieces of a length and fails at these calls.
fn folder_with(alloc: Global, files: &str, piece: usize, calls: &str) -> Result<MemFolder, NoMemory>
    requires { 1 ≤ piece }
{
    let mut held = Vec::new(alloc);
    for file in files.split("; ") {
        let (name, text) = name_and_text(file);
        let name = Bytes::from_slice(alloc, name.as_bytes())?;
        let content = Bytes::from_vec(bytes_of(alloc, text)?);
        held.push((name, content))?;
    }
    let failing = numbers_in(alloc, calls)?;
    Ok(MemFolder::new(alloc, held, piece, failing))
}

/// The numbers between commas, and none of `-`.
fn numbers_in(alloc: Global, text: &str) -> Result<Vec<u64>, NoMemory> {
    let mut numbers = Vec::new(alloc);
    for number in text.split(',') {
        if number != "-" {
            numbers.push(number.parse::<u64>().unwrap_or(0))?;
        }
    }
    Ok(numbers)
}

/// Runs the words, and gives the status.
fn run(
    alloc: Global,
    words: &str,
    folder: &mut MemFolder,
    out: &mut MemSink,
    err: &mut MemSink,
) -> Result<Vec<u8>, NoMemory> {
    let words = words_of(alloc, words)?;
    let ended = release(alloc, HashKey::new(7), &words, folder, out, err);
    let status = status_of(alloc, &ended);
    drop(ended);
    status
}

/// The status of an ending, and `wrong` where it has a fault and status 0, or none and another status, or where a copy of it
/// is another.
fn status_of(alloc: Global, ended: &Ended) -> Result<Vec<u8>, NoMemory> {
    let is_right = is_copied(alloc, ended)? && ended.fault.is_some() == (ended.status != 0);
    let text = if is_right {
        format!(in alloc; "{}", ended.status)?
    } else {
        format!(in alloc; "wrong")?
    };
    Ok(text.into_bytes())
}

/// Appends a part.
fn push_part(text: &mut Vec<u8>, part: &[u8]) -> Result<(), NoMemory> {
    push(text, b"; ")?;
    push(text, part)
}

/// Appends each file that the words name as an output.
fn push_outputs(text: &mut Vec<u8>, folder: &MemFolder, words: &str) -> Result<(), NoMemory> {
    for (place, part) in words.split("--output ").enumerate() {
        if place > 0 {
            push_output(text, folder, next_word(part).0)?;
        }
    }
    Ok(())
}

/// Appends a file.
fn push_output(text: &mut Vec<u8>, folder: &MemFolder, name: &str) -> Result<(), NoMemory> {
    push_part(text, name.as_bytes())?;
    match folder.held(name.as_bytes()) {
        None => push(text, b" missing"),
        Some(bytes) => {
            push(text, b"=")?;
            push(text, bytes)
        }
    }
}

/// Appends each file that was there before and is another now.
fn push_changed(
    alloc: Global,
    text: &mut Vec<u8>,
    folder: &MemFolder,
    files: &str,
) -> Result<(), NoMemory> {
    for file in files.split("; ") {
        let (name, before) = name_and_text(file);
        let before = bytes_of(alloc, before)?;
        if folder.held(name.as_bytes()) != Some(before.as_slice()) {
            push_part(text, name.as_bytes())?;
            push(text, b" changed")?;
        }
    }
    Ok(())
}
