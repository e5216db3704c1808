//! Why a file is no document.
ghost use Rattle.std.specs.Prelude.{◌≡◌};
ghost use Rattle.obo_frames.specs.declared.fault.DocFault.TheVariants as fault;

use obo_clause::SyntaxKind;
use rel_io::{Dup, NoMemory};
use std::alloc::Global;

/// The first fault of a file, at a line that is counted from 1.
#[derive(Clone, Copy, Debug, PartialEq, Eq)]
pub enum DocFault {
    /// The line is not UTF-8.
    NotUtf8 { line: u32 },
    /// The line has more bytes than the limit.
    LineTooLong { line: u32 },
    /// The line is none that is read.
    Syntax { line: u32, kind: SyntaxKind },
    /// The frame that begins at the line has no `id` clause as its first clause.
    NoId { line: u32 },
    /// The group whose first clause stands at the line has clauses for one expression alone.
    ShortGroup { line: u32 },
    /// No memory was left for the document.
    NoMemory,
}

impl Dup for DocFault {
    fn copy(&self, _alloc: Global) -> Result<DocFault, NoMemory> {
        Ok(*self)
    }
}

impl From<NoMemory> for DocFault {
    ghost from_gives = { λ _ made. made ≡ fault.NoMemory };

    fn from(_: NoMemory) -> DocFault {
        DocFault::NoMemory
    }
}
