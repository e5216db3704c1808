//! Files that are cut off: each prefix is read whole as in pieces of one byte, and its fault stands on its last line.
use super::pieces::is_same_in_bytes;
use crate::{bytes_of, push, wrong_in};
use obo_frames::{DocFault, read_document};
use rel_io::NoMemory;
use std::alloc::Global;
use std::test::Fail;

/// Files, and the prefixes that come to another thing in pieces, or whose fault stands on another line: none.
const FILES: &str = "\
format-version: 1.2|ontology: ex|[Term]|id: EX:1|name: a \\{ wheel|def: \"x, y\" [A:1 \"l\", B]|is_a: EX:2 {k=\"v\", w=x} ! y| => wrong:
@EF@@BB@@BF@[Term]@0D@|id: @C3@@A9@\\W1@0D@|intersection_of: A:2@0D@|intersection_of: r A:3|is_obsolete: true| => wrong:
[Typedef]|id: r|property_value: p \"v\" xsd:int|is_transitive: false|[Instance]|id: i|synonym: \"s\" EXACT t []|xref: A:1 \"x\"| => wrong:";

#[test]
fn prefixes_are_read_or_refused_at_their_end(rt: HostRuntime) -> Result<(), Fail> {
    let wrong = wrong_in(rt.alloc(), FILES, wrong_prefixes)?;
    assert_eq!(rt; wrong.as_str(), "");
    Ok(())
}

/// The lengths of the prefixes that are not as they have to be.
fn wrong_prefixes(alloc: Global, file: &str) -> Result<Vec<u8>, NoMemory> {
    let file = bytes_of(alloc, file)?;
    let mut wrong = Vec::from_slice(alloc, b"wrong:")?;
    for end in 0..file.len() {
        let (prefix, _) = file.as_slice().split_at(end);
        if !is_as_wanted(alloc, prefix) {
            push(&mut wrong, format!(in alloc; " {end}")?.as_bytes())?;
        }
    }
    Ok(wrong)
}

/// Whether a small file is the same in pieces of one byte, and has its fault, if any, on its last line.
fn is_as_wanted(alloc: Global, file: &[u8]) -> bool {
    if file.len() > 1000 {
        return false;
    }
    let read = read_document(alloc, file, 60);
    let is_same = is_same_in_bytes(alloc, file, 60, &read);
    let is_last = match &read {
        Ok(_) => true,
        Err(fault) => line_of(*fault) == lines_in(file),
    };
    drop(read);
    is_same && is_last
}

/// The line of a fault, from 1.
fn line_of(fault: DocFault) -> u32 {
    match fault {
        DocFault::NotUtf8 { line } => line,
        DocFault::LineTooLong { line } => line,
        DocFault::Syntax { line, .. } => line,
        DocFault::NoId { line } => line,
        DocFault::ShortGroup { line } => line,
        DocFault::NoMemory => 0,
    }
}

/// How many lines a file has; the last one may have no line feed.
fn lines_in(file: &[u8]) -> u32 {
    let mut lines: u32 = 0;
    let mut is_ended = true;
    for byte in file {
        if is_ended {
            lines = lines.saturating_add(1);
        }
        is_ended = *byte == b'\n';
    }
    lines
}
