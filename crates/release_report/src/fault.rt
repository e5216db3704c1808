//! The faults that end a run.
ghost use Rattle.std.specs.Prelude.{◌≡◌};
ghost use Rattle.release_report.specs.Cause.{fault_of_words};
ghost use Rattle.release_report.specs.declared.fault.Fault.TheVariants as fault;

use chain_words::{WordFault, WordKind};
use obo_clause::SyntaxKind;
use rel_io::{Bytes, Iri};
use std::alloc::AllocError;

/// What ended a run before its end. Lines are counted from 1; names of files are those by which they were opened.
#[derive(PartialEq, Eq, Drop)]
pub enum Fault {
    /// The first bad argument: its index, from 0 behind the program's name, and what is wrong with it.
    BadWord {
        index: u32,
        kind: WordKind,
    },
    /// A file that the arguments name is not there.
    MissingInput {
        name: Bytes,
    },
    /// A file that an import names is not there: the first clause that put it on the list, and its value.
    MissingImport {
        file: Bytes,
        line: u32,
        value: Bytes,
    },
    /// More files are listed than this limit.
    TooManyFiles {
        limit: u32,
    },
    /// While this file was read, the bytes became more than this limit.
    TooManyBytes {
        name: Bytes,
        limit: u64,
    },
    /// The line is not UTF-8.
    NotUtf8 {
        file: Bytes,
        line: u32,
    },
    /// The line has more bytes than a line may have.
    LineTooLong {
        file: Bytes,
        line: u32,
    },
    /// The line is none of OBO, and why.
    Syntax {
        file: Bytes,
        line: u32,
        kind: SyntaxKind,
    },
    /// The frame that begins at the line has no `id` clause as its first clause.
    NoId {
        file: Bytes,
        line: u32,
    },
    /// The group whose first clause stands at the line has clauses for one expression alone.
    ShortGroup {
        file: Bytes,
        line: u32,
    },
    /// The least line of the catalog that is refused.
    CatalogLine {
        file: Bytes,
        line: u32,
    },
    /// The least line of the term file that is refused.
    SeedLine {
        file: Bytes,
        line: u32,
    },
    /// The term file has no term.
    EmptySeed {
        file: Bytes,
    },
    /// More facts are derived than this limit.
    TooManyFacts {
        limit: u64,
    },
    /// The class is declared, and derived to be below `owl:Nothing`: the place of its declaration.
    Unsatisfiable {
        class: Iri,
        file: Bytes,
        line: u32,
    },
    /// One frame has two values where OBO has room for one: the two least values, each with its place.
    TwoValues {
        iri: Iri,
        tag: Bytes,
        first: Bytes,
        second: Bytes,
        first_file: Bytes,
        first_line: u32,
        second_file: Bytes,
        second_line: u32,
    },
    /// The file could not be opened or read.
    ReadFault {
        name: Bytes,
    },
    /// The file could not be written; nothing is known of it.
    WriteFault {
        name: Bytes,
    },
    /// The report could not be written.
    SinkFault,
    /// Memory ran out.
    NoMemory,
}

impl From<rel_io::NoMemory> for Fault {
    ghost from_gives = { λ _ made. made ≡ fault.NoMemory };

    fn from(_: rel_io::NoMemory) -> Fault {
        Fault::NoMemory
    }
}

impl From<AllocError> for Fault {
    ghost from_gives = { λ _ made. made ≡ fault.NoMemory };

    fn from(_: AllocError) -> Fault {
        Fault::NoMemory
    }
}

impl From<WordFault> for Fault {
    ghost from_gives = { λ told made. made ≡ fault_of_words told };

    fn from(told: WordFault) -> Fault {
        match told {
            WordFault::BadWord { index, kind } => Fault::BadWord { index, kind },
            WordFault::NoMemory => Fault::NoMemory,
        }
    }
}
