//! Copies of faults and of entries.
ghost use Rattle.std.specs.Prelude.{◌≡◌, IfOk};
ghost use Rattle.release_report.specs.declared.fault.Fault.TheVariants.{MissingImport, TwoValues, Unsatisfiable};
ghost use Rattle.release_report.specs.declared.entry.Entry.TheVariants.{Read};

use crate::{Counts, Entry, Fault};
use rel_io::{Bytes, Dup, Iri, Items, NoMemory};
use std::alloc::Global;

/// A copy of a fault about an import.
fn copied_missing_import(
    alloc: Global,
    file: &Bytes,
    line: u32,
    value: &Bytes,
) -> Result<Fault, NoMemory>
    ensures { IfOk result (λ twin. twin ≡ MissingImport file.now line value.now) }
{
    let file = file.copy(alloc)?;
    let value = value.copy(alloc)?;
    Ok(Fault::MissingImport { file, line, value })
}

/// A copy of a fault about a class.
fn copied_unsatisfiable(
    alloc: Global,
    class: &Iri,
    file: &Bytes,
    line: u32,
) -> Result<Fault, NoMemory>
    ensures { IfOk result (λ twin. twin ≡ Unsatisfiable class.now file.now line) }
{
    let class = class.copy(alloc)?;
    let file = file.copy(alloc)?;
    Ok(Fault::Unsatisfiable { class, file, line })
}

/// A copy of a fault about two values.
fn copied_two_values(
    alloc: Global,
    iri: &Iri,
    tag: &Bytes,
    first: &Bytes,
    second: &Bytes,
    first_file: &Bytes,
    first_line: u32,
    second_file: &Bytes,
    second_line: u32,
) -> Result<Fault, NoMemory>
    ensures { IfOk result (λ twin. twin ≡ TwoValues iri.now tag.now first.now second.now first_file.now first_line second_file.now second_line) }
{
    let iri = iri.copy(alloc)?;
    let tag = tag.copy(alloc)?;
    let first = first.copy(alloc)?;
    let second = second.copy(alloc)?;
    let first_file = first_file.copy(alloc)?;
    let second_file = second_file.copy(alloc)?;
    Ok(Fault::TwoValues {
        iri,
        tag,
        first,
        second,
        first_file,
        first_line,
        second_file,
        second_line,
    })
}

impl Dup for Fault {
    fn copy(&self, alloc: Global) -> Result<Fault, NoMemory> {
        match self {
            Fault::BadWord { index, kind } => Ok(Fault::BadWord {
                index: *index,
                kind: *kind,
            }),
            Fault::MissingInput { name } => name
                .copy(alloc)
                .map(|name| Fault::MissingInput { name }),
            Fault::MissingImport { file, line, value } => copied_missing_import(
                alloc, file, *line, value,
            ),
            Fault::TooManyFiles { limit } => Ok(Fault::TooManyFiles { limit: *limit }),
            Fault::TooManyBytes { name, limit } => name.copy(alloc).map(
                |name| Fault::TooManyBytes {
                    name,
                    limit: *limit,
                },
            ),
            Fault::NotUtf8 { file, line } => file
                .copy(alloc)
                .map(|file| Fault::NotUtf8 { file, line: *line }),
            Fault::LineTooLong { file, line } => file
                .copy(alloc)
                .map(|file| Fault::LineTooLong { file, line: *line }),
            Fault::Syntax { file, line, kind } => file.copy(alloc).map(|file| Fault::Syntax {
                file,
                line: *line,
                kind: *kind,
            }),
            Fault::NoId { file, line } => file
                .copy(alloc)
                .map(|file| Fault::NoId { file, line: *line }),
            Fault::ShortGroup { file, line } => file
                .copy(alloc)
                .map(|file| Fault::ShortGroup { file, line: *line }),
            Fault::CatalogLine { file, line } => file
                .copy(alloc)
                .map(|file| Fault::CatalogLine { file, line: *line }),
            Fault::SeedLine { file, line } => file
                .copy(alloc)
                .map(|file| Fault::SeedLine { file, line: *line }),
            Fault::EmptySeed { file } => file.copy(alloc).map(|file| Fault::EmptySeed { file }),
            Fault::TooManyFacts { limit } => Ok(Fault::TooManyFacts { limit: *limit }),
            Fault::Unsatisfiable { class, file, line } => copied_unsatisfiable(
                alloc, class, file, *line,
            ),
            Fault::TwoValues {
                iri,
                tag,
                first,
                second,
                first_file,
                first_line,
                second_file,
                second_line,
            } => copied_two_values(
                alloc,
                iri,
                tag,
                first,
                second,
                first_file,
                *first_line,
                second_file,
                *second_line,
            ),
            Fault::ReadFault { name } => name.copy(alloc).map(|name| Fault::ReadFault { name }),
            Fault::WriteFault { name } => name.copy(alloc).map(|name| Fault::WriteFault { name }),
            Fault::SinkFault => Ok(Fault::SinkFault),
            Fault::NoMemory => Ok(Fault::NoMemory),
        }
    }
}

impl Dup for Counts {
    fn copy(&self, _alloc: Global) -> Result<Counts, NoMemory> {
        Ok(*self)
    }
}

/// A copy of the entry of a file that was read.
fn copied_read(
    alloc: Global,
    name: &Bytes,
    frames: u64,
    dropped: &Items<(u32, Bytes)>,
) -> Result<Entry, NoMemory>
    ensures { IfOk result (λ twin. twin ≡ Read name.now frames dropped.now) }
{
    let name = name.copy(alloc)?;
    let dropped = dropped.copy(alloc)?;
    Ok(Entry::Read {
        name,
        frames,
        dropped,
    })
}

impl Dup for Entry {
    fn copy(&self, alloc: Global) -> Result<Entry, NoMemory> {
        match self {
            Entry::Read {
                name,
                frames,
                dropped,
            } => copied_read(alloc, name, *frames, dropped),
            Entry::Generated { n, frames, bytes } => Ok(Entry::Generated {
                n: *n,
                frames: *frames,
                bytes: *bytes,
            }),
            Entry::Merged(counts) => Ok(Entry::Merged(*counts)),
            Entry::Extracted {
                method,
                counts,
                unknown,
                rounds,
            } => method.copy(alloc).map(|method| Entry::Extracted {
                method,
                counts: *counts,
                unknown: *unknown,
                rounds: *rounds,
            }),
            Entry::Reasoned { added, unused } => Ok(Entry::Reasoned {
                added: *added,
                unused: *unused,
            }),
            Entry::Relaxed { added } => Ok(Entry::Relaxed { added: *added }),
            Entry::Reduced { removed } => Ok(Entry::Reduced { removed: *removed }),
            Entry::Written { name, bytes } => name.copy(alloc).map(|name| Entry::Written {
                name,
                bytes: *bytes,
            }),
            Entry::Printed { bytes } => Ok(Entry::Printed { bytes: *bytes }),
        }
    }
}
