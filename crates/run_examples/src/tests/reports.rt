//! What the user reads: the status and the text of every fault, and the lines of every entry of a report.
ghost use Rattle.std.specs.Prelude.{◌≤◌};

use chain_words::{WordFault, WordKind};
use document_examples::{bytes_of, is_copied, push, wrong_in};
use obo_clause::SyntaxKind;
use rel_io::{Bytes, Iri, Items, MemSink, NoMemory};
use release_report::{Counts, Entry, Fault, report_text, status_of, write_fault};
use std::alloc::Global;
use std::test::Fail;

/// A fault, its fields in order, with a blank between two; `@20@` is a blank in a field. What is answered is its status
/// and its text.
const FAULTS: &str = "\
BadWord 1024 TooMany => 2 robot: word 1024: too many|
BadWord 0 NoCommand => 2 robot: word 0: no command|
BadWord 0 MissingOption => 2 robot: word 0: missing option|
BadWord 5 NoFormat => 2 robot: word 5: no format|
BadWord 3 NotHere => 2 robot: word 3: not here|
BadWord 6 Repeated => 2 robot: word 6: repeated|
BadWord 1 NoValue => 2 robot: word 1: no value|
BadWord 4294967295 BadValue => 2 robot: word 4294967295: bad value|
BadWord 10 UnknownWord => 2 robot: word 10: unknown word|
BadWord 9 OutputIsInput => 2 robot: word 9: output is input|
BadWord 7 OutputTwice => 2 robot: word 7: output twice|
MissingInput edit.obo => 1 robot: edit.obo: missing|
MissingInput a@20@b => 1 robot: a b: missing|
MissingImport edit.obo 2 ro.obo => 1 robot: edit.obo:2: missing import ro.obo|
TooManyFiles 256 => 1 robot: more than 256 files|
TooManyBytes d/a.obo 268435456 => 1 robot: d/a.obo: more than 268435456 bytes|
NotUtf8 a.obo 3 => 1 robot: a.obo:3: not UTF-8|
LineTooLong a.obo 4294967295 => 1 robot: a.obo:4294967295: line too long|
Syntax edit.obo 7 NoColon => 1 robot: edit.obo:7: syntax: no colon|
Syntax edit.obo 7 BadTag => 1 robot: edit.obo:7: syntax: bad tag|
Syntax a.obo 1 BadFrame => 1 robot: a.obo:1: syntax: bad frame|
Syntax a.obo 2 NoValue => 1 robot: a.obo:2: syntax: no value|
Syntax a.obo 3 NoQuote => 1 robot: a.obo:3: syntax: no quote|
Syntax a.obo 4 OpenQuote => 1 robot: a.obo:4: syntax: open quote|
Syntax a.obo 5 XrefList => 1 robot: a.obo:5: syntax: xref list|
Syntax a.obo 6 BadBool => 1 robot: a.obo:6: syntax: bad bool|
Syntax a.obo 10 Trailing => 1 robot: a.obo:10: syntax: trailing|
NoId a.obo 2 => 1 robot: a.obo:2: no id|
ShortGroup a.obo 30 => 1 robot: a.obo:30: short group|
CatalogLine catalog.txt 1 => 1 robot: catalog.txt:1: catalog line|
SeedLine terms.txt 1000001 => 1 robot: terms.txt:1000001: seed line|
EmptySeed terms.txt => 1 robot: terms.txt: empty seed|
TooManyFacts 67108864 => 1 robot: more than 67108864 facts|
Unsatisfiable edit.obo 4 http://purl.obolibrary.org/obo/EX_0000001 => 1 robot: edit.obo:4: unsatisfiable <http://purl.obolibrary.org/obo/EX_0000001>|
TwoValues b.obo 3 roller a.obo 12 big@20@wheel http://x.org/EX_1 name => 1 robot: <http://x.org/EX_1>: name has roller (b.obo:3) and big wheel (a.obo:12)|
ReadFault a.obo => 3 robot: a.obo: read fault|
WriteFault b.obo => 3 robot: b.obo: write fault|
SinkFault => 3 robot: report: write fault|
NoMemory => 4 robot: out of memory|";

#[test]
fn each_fault_has_its_status_and_its_text(rt: HostRuntime) -> Result<(), Fail> {
    let wrong = wrong_in(rt.alloc(), FAULTS, status_and_text)?;
    assert_eq!(rt; wrong.as_str(), "");
    Ok(())
}

/// The status of a fault, and its text.
fn status_and_text(alloc: Global, input: &str) -> Result<Vec<u8>, NoMemory> {
    let fault = fault_of(alloc, input)?;
    let told = told(alloc, &fault);
    drop(fault);
    told
}

fn told(alloc: Global, fault: &Fault) -> Result<Vec<u8>, NoMemory> {
    if !is_copied(alloc, fault)? {
        return Ok(Vec::new(alloc));
    }
    let mut sink = MemSink::new(alloc, 200, Vec::new(alloc))?;
    let is_written = write_fault(fault, &mut sink).is_ok();
    let mut text = format!(in alloc; "{} ", status_of(fault))?.into_bytes();
    if is_written {
        push(&mut text, sink.bytes())?;
    }
    Ok(text)
}

/// A field of an example; nothing behind the last.
fn field(text: &str, at: usize) -> &str {
    text.split(' ').nth(at).unwrap_or("")
}

/// A field that is a number.
fn number(text: &str, at: usize) -> u64 {
    field(text, at).parse::<u64>().unwrap_or(0)
}

/// A field that is a number of a line, a word or a step.
fn small(text: &str, at: usize) -> u32 {
    field(text, at).parse::<u32>().unwrap_or(0)
}

/// A field that is a text.
fn text_at(alloc: Global, text: &str, at: usize) -> Result<Bytes, NoMemory> {
    Ok(Bytes::from_vec(bytes_of(alloc, field(text, at))?))
}

/// The fault of an example.
fn fault_of(alloc: Global, text: &str) -> Result<Fault, NoMemory> {
    match field(text, 0) {
        "BadWord" => Ok(Fault::from(WordFault::BadWord {
            index: small(text, 1),
            kind: word_kind(field(text, 2)),
        })),
        "TooManyFiles" => Ok(Fault::TooManyFiles {
            limit: small(text, 1),
        }),
        "TooManyFacts" => Ok(Fault::TooManyFacts {
            limit: number(text, 1),
        }),
        "SinkFault" => Ok(Fault::SinkFault),
        "NoMemory" => Ok(Fault::from(NoMemory)),
        "MissingImport" => missing_import(alloc, text),
        "Unsatisfiable" => unsatisfiable(alloc, text),
        "TwoValues" => two_values(alloc, text),
        name => fault_at(name, text, text_at(alloc, text, 1)?, small(text, 2)),
    }
}

/// The fault of a file, and perhaps of a line.
fn fault_at(name: &str, text: &str, file: Bytes, line: u32) -> Result<Fault, NoMemory> {
    match name {
        "MissingInput" => Ok(Fault::MissingInput { name: file }),
        "TooManyBytes" => Ok(Fault::TooManyBytes {
            name: file,
            limit: number(text, 2),
        }),
        "NotUtf8" => Ok(Fault::NotUtf8 { file, line }),
        "LineTooLong" => Ok(Fault::LineTooLong { file, line }),
        "Syntax" => Ok(Fault::Syntax {
            file,
            line,
            kind: syntax_kind(field(text, 3)),
        }),
        "NoId" => Ok(Fault::NoId { file, line }),
        "ShortGroup" => Ok(Fault::ShortGroup { file, line }),
        "CatalogLine" => Ok(Fault::CatalogLine { file, line }),
        "SeedLine" => Ok(Fault::SeedLine { file, line }),
        "EmptySeed" => Ok(Fault::EmptySeed { file }),
        "ReadFault" => Ok(Fault::ReadFault { name: file }),
        _ => Ok(Fault::WriteFault { name: file }),
    }
}

fn missing_import(alloc: Global, text: &str) -> Result<Fault, NoMemory> {
    let file = text_at(alloc, text, 1)?;
    let value = text_at(alloc, text, 3)?;
    Ok(Fault::MissingImport {
        file,
        line: small(text, 2),
        value,
    })
}

fn unsatisfiable(alloc: Global, text: &str) -> Result<Fault, NoMemory> {
    let file = text_at(alloc, text, 1)?;
    let class = Iri::from_slice(alloc, field(text, 3).as_bytes())?;
    Ok(Fault::Unsatisfiable {
        class,
        file,
        line: small(text, 2),
    })
}

/// The first file, its line and value; the second; the IRI and the tag.
fn two_values(alloc: Global, text: &str) -> Result<Fault, NoMemory> {
    let first_file = text_at(alloc, text, 1)?;
    let first = text_at(alloc, text, 3)?;
    let second_file = text_at(alloc, text, 4)?;
    let second = text_at(alloc, text, 6)?;
    let iri = Iri::from_slice(alloc, field(text, 7).as_bytes())?;
    let tag = text_at(alloc, text, 8)?;
    Ok(Fault::TwoValues {
        iri,
        tag,
        first,
        second,
        first_file,
        first_line: small(text, 2),
        second_file,
        second_line: small(text, 5),
    })
}

fn word_kind(name: &str) -> WordKind {
    match name {
        "TooMany" => WordKind::TooMany,
        "NoCommand" => WordKind::NoCommand,
        "MissingOption" => WordKind::MissingOption,
        "NoFormat" => WordKind::NoFormat,
        "NotHere" => WordKind::NotHere,
        "Repeated" => WordKind::Repeated,
        "NoValue" => WordKind::NoValue,
        "BadValue" => WordKind::BadValue,
        "UnknownWord" => WordKind::UnknownWord,
        "OutputIsInput" => WordKind::OutputIsInput,
        _ => WordKind::OutputTwice,
    }
}

fn syntax_kind(name: &str) -> SyntaxKind {
    match name {
        "NoColon" => SyntaxKind::NoColon,
        "BadTag" => SyntaxKind::BadTag,
        "BadFrame" => SyntaxKind::BadFrame,
        "NoValue" => SyntaxKind::NoValue,
        "NoQuote" => SyntaxKind::NoQuote,
        "OpenQuote" => SyntaxKind::OpenQuote,
        "XrefList" => SyntaxKind::XrefList,
        "BadBool" => SyntaxKind::BadBool,
        _ => SyntaxKind::Trailing,
    }
}

/// Entries, with `; ` between two, and the text of their report. Of a file that was read, each clause that is not
/// translated has two fields, its line and its tag.
const REPORTS: &str = "\
Read empty.obo 0; Merged 0 0 0; Written r.obo 20 => read empty.obo: 0 frames, 0 clauses not translated|merge: 0 logical, 0 declarations, 0 notes|write r.obo: 20 bytes|
Read edit.obo 1 5 relationship; Merged 0 1 0 => read edit.obo: 1 frames, 1 clauses not translated|edit.obo:5: relationship not translated|merge: 0 logical, 1 declarations, 0 notes|
Read a@20@b 12 3 import 40 x-y; Read d/ro.obo 1000000 => read a b: 12 frames, 2 clauses not translated|a b:3: import not translated|a b:40: x-y not translated|read d/ro.obo: 1000000 frames, 0 clauses not translated|
Read edit.obo 6; Merged 5 6 5; Reasoned 2 0; Relaxed 1; Reduced 1; Written release.obo 456 => read edit.obo: 6 frames, 0 clauses not translated|merge: 5 logical, 6 declarations, 5 notes|reason: 2 added, 0 not used|relax: 1 added|reduce: 1 removed|write release.obo: 456 bytes|
Generated 20000 28002 1828094; Merged 31999 28002 28002; Extracted STAR 8001 10001 10001 0 2; Reasoned 4000 0; Relaxed 2000; Reduced 2000; Printed 952091 => generate 20000: 28002 frames, 1828094 bytes|merge: 31999 logical, 28002 declarations, 28002 notes|extract STAR: 8001 logical, 10001 declarations, 10001 notes, 0 unknown terms, 2 rounds|reason: 4000 added, 0 not used|relax: 2000 added|reduce: 2000 removed|text: 952091 bytes|
Extracted BOT 3 6 0 1 1; Reasoned 0 18446744073709551615 => extract BOT: 3 logical, 6 declarations, 0 notes, 1 unknown terms, 1 rounds|reason: 0 added, 18446744073709551615 not used|";

#[test]
fn entries_have_their_lines(rt: HostRuntime) -> Result<(), Fail> {
    let wrong = wrong_in(rt.alloc(), REPORTS, report_of)?;
    assert_eq!(rt; wrong.as_str(), "");
    Ok(())
}

/// The text of a report.
fn report_of(alloc: Global, input: &str) -> Result<Vec<u8>, NoMemory> {
    let mut entries = Vec::new(alloc);
    if !input.is_empty() {
        for text in input.split("; ") {
            let entry = entry_of(alloc, text)?;
            entries.push(entry)?;
        }
    }
    if !are_copied(alloc, entries.as_slice())? {
        return Ok(Vec::new(alloc));
    }
    Ok(report_text(alloc, &entries)?.into_vec())
}

/// Whether a copy of each entry is equal to it.
fn are_copied(alloc: Global, entries: &[Entry]) -> Result<bool, NoMemory> {
    let mut are_copied = true;
    for entry in entries {
        are_copied &= is_copied(alloc, entry)?;
    }
    Ok(are_copied)
}

/// The entry of an example.
fn entry_of(alloc: Global, text: &str) -> Result<Entry, NoMemory> {
    match field(text, 0) {
        "Read" => read(alloc, text),
        "Generated" => Ok(Entry::Generated {
            n: small(text, 1),
            frames: number(text, 2),
            bytes: number(text, 3),
        }),
        "Merged" => Ok(Entry::Merged(counts(text, 1))),
        "Extracted" => extracted(alloc, text),
        "Reasoned" => Ok(Entry::Reasoned {
            added: number(text, 1),
            unused: number(text, 2),
        }),
        "Relaxed" => Ok(Entry::Relaxed {
            added: number(text, 1),
        }),
        "Reduced" => Ok(Entry::Reduced {
            removed: number(text, 1),
        }),
        "Written" => written(alloc, text),
        _ => Ok(Entry::Printed {
            bytes: number(text, 1),
        }),
    }
}

/// Three fields that count axioms, from a place on.
fn counts(text: &str, at: usize) -> Counts
    requires { at ≤ 10 }
{
    Counts {
        logical: number(text, at),
        declared: number(text, at + 1),
        notes: number(text, at + 2),
    }
}

fn extracted(alloc: Global, text: &str) -> Result<Entry, NoMemory> {
    let method = text_at(alloc, text, 1)?;
    Ok(Entry::Extracted {
        method,
        counts: counts(text, 2),
        unknown: number(text, 5),
        rounds: number(text, 6),
    })
}

fn written(alloc: Global, text: &str) -> Result<Entry, NoMemory> {
    let name = text_at(alloc, text, 1)?;
    Ok(Entry::Written {
        name,
        bytes: number(text, 2),
    })
}

fn read(alloc: Global, text: &str) -> Result<Entry, NoMemory> {
    let dropped = dropped(alloc, text)?;
    let name = text_at(alloc, text, 1)?;
    Ok(Entry::Read {
        name,
        frames: number(text, 2),
        dropped: Items::from_vec(dropped),
    })
}

/// The clauses that are not translated, of at most ten.
fn dropped(alloc: Global, text: &str) -> Result<Vec<(u32, Bytes)>, NoMemory> {
    let mut dropped = Vec::new(alloc);
    for place in 0..10 {
        if !field(text, 2 * place + 3).is_empty() {
            let tag = text_at(alloc, text, 2 * place + 4)?;
            dropped.push((small(text, 2 * place + 3), tag))?;
        }
    }
    Ok(dropped)
}
