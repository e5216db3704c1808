//! What a line says, or what is wrong with it.
ghost use Rattle.std.specs.Prelude.{◌≡◌};
ghost use Rattle.obo_clause.specs.declared.line.LineFault.TheVariants as fault;

use crate::Clause;
use obo_tags::FrameKind;
use rel_io::{Dup, NoMemory};
use std::alloc::Global;

/// What a line says.
#[derive(PartialEq, Eq, Drop)]
pub enum Line {
    /// Nothing, or a comment alone.
    Blank,
    /// A frame of this kind begins: never the header.
    Frame(FrameKind),
    /// A clause of the frame.
    Content(Clause),
}

/// The first part of a line that is not as it should be, from left to right.
#[derive(Clone, Copy, Debug, PartialEq, Eq)]
pub enum SyntaxKind {
    /// No colon stands in the line.
    NoColon,
    /// What stands before the colon is no tag.
    BadTag,
    /// A line that begins with `[` is no frame line of a kind that is read.
    BadFrame,
    /// A word or the run of an xref is missing.
    NoValue,
    /// A quoted text is missing.
    NoQuote,
    /// A quoted text has no end.
    OpenQuote,
    /// A list of dbxrefs has no end, or something in it that is no dbxref.
    XrefList,
    /// A word other than `true` and `false`.
    BadBool,
    /// Something stands behind the value that is no block of qualifiers and no comment.
    Trailing,
}

/// Why a line is not read.
#[derive(Clone, Copy, Debug, PartialEq, Eq)]
pub enum LineFault {
    /// The line is none that is read.
    Syntax(SyntaxKind),
    /// No memory was left for the clause.
    NoMemory,
}

impl Dup for Line {
    fn copy(&self, alloc: Global) -> Result<Line, NoMemory> {
        match self {
            Line::Blank => Ok(Line::Blank),
            Line::Frame(kind) => Ok(Line::Frame(*kind)),
            Line::Content(clause) => clause.copy(alloc).map(Line::Content),
        }
    }
}

impl Dup for SyntaxKind {
    fn copy(&self, _alloc: Global) -> Result<SyntaxKind, NoMemory> {
        Ok(*self)
    }
}

impl Dup for LineFault {
    fn copy(&self, _alloc: Global) -> Result<LineFault, NoMemory> {
        Ok(*self)
    }
}

impl From<SyntaxKind> for LineFault {
    ghost from_gives = { λ one made. made ≡ fault.Syntax one };

    fn from(one: SyntaxKind) -> LineFault {
        LineFault::Syntax(one)
    }
}

impl From<NoMemory> for LineFault {
    ghost from_gives = { λ _ made. made ≡ fault.NoMemory };

    fn from(_: NoMemory) -> LineFault {
        LineFault::NoMemory
    }
}
