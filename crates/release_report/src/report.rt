//! The text of the report.
ghost use Rattle.std.specs.Prelude.{◌≡◌, ◌++◌, ◌∷◌, [], codes, decimal, length, IfOk};
ghost use Rattle.std.specs.List.{flat_map};
ghost use Rattle.release_report.specs.EntryText.{counted, dropped_text, entry_text, report_text};
ghost use Rattle.release_report.specs.Line.{line};

use crate::pieces::{Piece, add_line};
use crate::{Counts, Entry};
use rel_io::{Bytes, NoMemory};
use std::alloc::Global;

/// Adds the line of a clause that is not translated.
fn add_dropped<'a>(
    name: &'a Bytes,
    clause: &'a (u32, Bytes),
    text: Vec<u8>,
) -> Result<Vec<u8>, NoMemory>
    ensures { IfOk result (λ longer. longer.items ≡ text.items ++ dropped_text name.now clause.now) }
{
    let (at, tag) = clause;
    add_line(
        &[
            Piece::Text(name.as_slice()),
            Piece::Text(b":"),
            Piece::Number(*at as u64),
            Piece::Text(b": "),
            Piece::Text(tag.as_slice()),
            Piece::Text(b" not translated"),
        ],
        text,
    )
}

/// Adds the lines of the clauses that are not translated.
fn add_all_dropped(
    name: &Bytes,
    dropped: &[(u32, Bytes)],
    mut text: Vec<u8>,
) -> Result<Vec<u8>, NoMemory>
    ensures { IfOk result (λ longer. longer.items ≡ text.items ++ flat_map (dropped_text name.now) dropped.now) }
{
    for clause in dropped {
        text = add_dropped(name, clause, text)?;
    }
    Ok(text)
}

/// Adds the lines of a file that was read.
fn add_read(
    name: &Bytes,
    frames: u64,
    dropped: &[(u32, Bytes)],
    text: Vec<u8>,
) -> Result<Vec<u8>, NoMemory>
    ensures { IfOk result (λ longer. longer.items ≡ text.items ++ (line (codes "read " ∷ name.now ∷ codes ": " ∷ decimal frames ∷ codes " frames, " ∷ decimal (length dropped.now) ∷ codes " clauses not translated" ∷ []) ++ flat_map (dropped_text name.now) dropped.now)) }
{
    let text = add_line(
        &[
            Piece::Text(b"read "),
            Piece::Text(name.as_slice()),
            Piece::Text(b": "),
            Piece::Number(frames),
            Piece::Text(b" frames, "),
            Piece::Number(dropped.len() as u64),
            Piece::Text(b" clauses not translated"),
        ],
        text,
    )?;
    add_all_dropped(name, dropped, text)
}

/// Adds the line of a module.
fn add_extracted(
    method: &Bytes,
    counts: &Counts,
    unknown: u64,
    rounds: u64,
    text: Vec<u8>,
) -> Result<Vec<u8>, NoMemory>
    ensures { IfOk result (λ longer. longer.items ≡ text.items ++ line (codes "extract " ∷ method.now ∷ codes ": " ∷ counted counts.now ++ (codes ", " ∷ decimal unknown ∷ codes " unknown terms, " ∷ decimal rounds ∷ codes " rounds" ∷ []))) }
{
    add_line(
        &[
            Piece::Text(b"extract "),
            Piece::Text(method.as_slice()),
            Piece::Text(b": "),
            Piece::Number(counts.logical),
            Piece::Text(b" logical, "),
            Piece::Number(counts.declared),
            Piece::Text(b" declarations, "),
            Piece::Number(counts.notes),
            Piece::Text(b" notes"),
            Piece::Text(b", "),
            Piece::Number(unknown),
            Piece::Text(b" unknown terms, "),
            Piece::Number(rounds),
            Piece::Text(b" rounds"),
        ],
        text,
    )
}

/// Adds the lines of an entry.
fn add_entry(entry: &Entry, text: Vec<u8>) -> Result<Vec<u8>, NoMemory>
    ensures { IfOk result (λ longer. longer.items ≡ text.items ++ entry_text entry.now) }
{
    match entry {
        Entry::Read {
            name,
            frames,
            dropped,
        } => add_read(name, *frames, dropped.as_slice(), text),
        Entry::Generated { n, frames, bytes } => add_line(
            &[
                Piece::Text(b"generate "),
                Piece::Number(*n as u64),
                Piece::Text(b": "),
                Piece::Number(*frames),
                Piece::Text(b" frames, "),
                Piece::Number(*bytes),
                Piece::Text(b" bytes"),
            ],
            text,
        ),
        Entry::Merged(counts) => add_line(
            &[
                Piece::Text(b"merge: "),
                Piece::Number(counts.logical),
                Piece::Text(b" logical, "),
                Piece::Number(counts.declared),
                Piece::Text(b" declarations, "),
                Piece::Number(counts.notes),
                Piece::Text(b" notes"),
            ],
            text,
        ),
        Entry::Extracted {
            method,
            counts,
            unknown,
            rounds,
        } => add_extracted(method, counts, *unknown, *rounds, text),
        Entry::Reasoned { added, unused } => add_line(
            &[
                Piece::Text(b"reason: "),
                Piece::Number(*added),
                Piece::Text(b" added, "),
                Piece::Number(*unused),
                Piece::Text(b" not used"),
            ],
            text,
        ),
        Entry::Relaxed { added } => add_line(
            &[
                Piece::Text(b"relax: "),
                Piece::Number(*added),
                Piece::Text(b" added"),
            ],
            text,
        ),
        Entry::Reduced { removed } => add_line(
            &[
                Piece::Text(b"reduce: "),
                Piece::Number(*removed),
                Piece::Text(b" removed"),
            ],
            text,
        ),
        Entry::Written { name, bytes } => add_line(
            &[
                Piece::Text(b"write "),
                Piece::Text(name.as_slice()),
                Piece::Text(b": "),
                Piece::Number(*bytes),
                Piece::Text(b" bytes"),
            ],
            text,
        ),
        Entry::Printed { bytes } => add_line(
            &[
                Piece::Text(b"text: "),
                Piece::Number(*bytes),
                Piece::Text(b" bytes"),
            ],
            text,
        ),
    }
}

/// The text of the report: the lines of these entries, in order.
pub fn report_text(alloc: Global, entries: &Vec<Entry>) -> Result<Bytes, NoMemory>
    ensures { IfOk result (λ text. text ≡ report_text entries.now.items) }
{
    let mut text = Vec::new(alloc);
    for entry in entries {
        text = add_entry(entry, text)?;
    }
    Ok(Bytes::from_vec(text))
}
