//! Why files are not loaded.
ghost use Rattle.std.specs.Prelude.{◌≡◌, IfOk};
ghost use Rattle.import_closure.specs.declared.fault.LoadFault.TheVariants as fault;

use obo_clause::SyntaxKind;
use rel_io::{Bytes, Dup};
use std::alloc::{AllocFailed, Global};

/// The first refusal of the files, or what failed.
#[derive(PartialEq, Eq, Drop)]
pub enum LoadFault {
    /// An input, or the catalog, is not there.
    MissingInput {
        /// The name of the file.
        name: Bytes,
    },
    /// An imported file is not there. It is named by the first clause that asked for it.
    MissingImport {
        /// The name of the file in which the clause stands.
        file: Bytes,
        /// The line of the clause, from 1.
        line: u32,
        /// What the clause says.
        value: Bytes,
    },
    /// One file more than the limit has its turn.
    TooManyFiles {
        /// The limit.
        limit: u32,
    },
    /// One byte more than the limit was read: of the listed files together, or of the catalog.
    TooManyBytes {
        /// The name of the file.
        name: Bytes,
        /// The limit.
        limit: u64,
    },
    /// The line of the catalog is none of a catalog.
    CatalogLine {
        /// The name of the file.
        file: Bytes,
        /// The line, from 1.
        line: u32,
    },
    /// The file could not be opened or read.
    ReadFault {
        /// The name of the file.
        name: Bytes,
    },
    /// The line of the file is not UTF-8.
    NotUtf8 {
        /// The name of the file.
        file: Bytes,
        /// The line, from 1.
        line: u32,
    },
    /// The line of the file has more bytes than a line may have.
    LineTooLong {
        /// The name of the file.
        file: Bytes,
        /// The line, from 1.
        line: u32,
    },
    /// The line of the file is none of OBO, and why.
    Syntax {
        /// The name of the file.
        file: Bytes,
        /// The line, from 1.
        line: u32,
        /// What is wrong with the line.
        kind: SyntaxKind,
    },
    /// The frame that begins at the line of the file has no `id` clause as its first clause.
    NoId {
        /// The name of the file.
        file: Bytes,
        /// The line, from 1.
        line: u32,
    },
    /// The group of a Term whose first clause stands at the line of the file has clauses for one expression alone.
    ShortGroup {
        /// The name of the file.
        file: Bytes,
        /// The line, from 1.
        line: u32,
    },
    /// Memory ran out.
    NoMemory,
}

impl From<rel_io::NoMemory> for LoadFault {
    ghost from_gives = { λ _ made. made ≡ fault.NoMemory };

    fn from(_: rel_io::NoMemory) -> LoadFault {
        LoadFault::NoMemory
    }
}

impl<T: Drop> From<AllocFailed<T>> for LoadFault {
    ghost from_gives = { λ _ made. made ≡ fault.NoMemory };

    fn from(_: AllocFailed<T>) -> LoadFault {
        LoadFault::NoMemory
    }
}

impl Dup for LoadFault {
    fn copy(&self, alloc: Global) -> Result<LoadFault, rel_io::NoMemory> {
        match self {
            LoadFault::MissingInput { name } => name
                .copy(alloc)
                .map(|name| LoadFault::MissingInput { name }),
            LoadFault::MissingImport { file, line, value } => {
                copied_import(alloc, file, *line, value)
            }
            LoadFault::TooManyFiles { limit } => Ok(LoadFault::TooManyFiles { limit: *limit }),
            LoadFault::TooManyBytes { name, limit } => name.copy(alloc).map(
                |name| LoadFault::TooManyBytes {
                    name,
                    limit: *limit,
                },
            ),
            LoadFault::CatalogLine { file, line } => file
                .copy(alloc)
                .map(|file| LoadFault::CatalogLine { file, line: *line }),
            LoadFault::ReadFault { name } => {
                name.copy(alloc).map(|name| LoadFault::ReadFault { name })
            }
            LoadFault::NotUtf8 { file, line } => file
                .copy(alloc)
                .map(|file| LoadFault::NotUtf8 { file, line: *line }),
            LoadFault::LineTooLong { file, line } => file
                .copy(alloc)
                .map(|file| LoadFault::LineTooLong { file, line: *line }),
            LoadFault::Syntax { file, line, kind } => {
                file.copy(alloc).map(|file| LoadFault::Syntax {
                    file,
                    line: *line,
                    kind: *kind,
                })
            }
            LoadFault::NoId { file, line } => file
                .copy(alloc)
                .map(|file| LoadFault::NoId { file, line: *line }),
            LoadFault::ShortGroup { file, line } => file
                .copy(alloc)
                .map(|file| LoadFault::ShortGroup { file, line: *line }),
            LoadFault::NoMemory => Ok(LoadFault::NoMemory),
        }
    }
}

/// The fault of an import that is not there, copied.
fn copied_import(
    alloc: Global,
    file: &Bytes,
    line: u32,
    value: &Bytes,
) -> Result<LoadFault, rel_io::NoMemory>
    ensures { IfOk result (λ made. made ≡ fault.MissingImport file.now line value.now) }
{
    let file = file.copy(alloc)?;
    let value = value.copy(alloc)?;
    Ok(LoadFault::MissingImport { file, line, value })
}
