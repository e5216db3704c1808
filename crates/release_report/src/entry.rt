//! What the report tells of a run, in the order of the work.
use rel_io::{Bytes, Items};

/// How many axioms there are, by what they say.
#[derive(Clone, Copy, PartialEq, Eq)]
pub struct Counts {
    /// The logical axioms.
    pub logical: u64,
    /// The declarations.
    pub declared: u64,
    /// The notes, about names and about the ontology.
    pub notes: u64,
}

/// A line of the report; of a file that was read, its line and those of its clauses that no axiom says.
#[derive(PartialEq, Eq, Drop)]
pub enum Entry {
    /// A file was read.
    Read {
        /// Its name.
        name: Bytes,
        /// Its frames, after those of one kind and one IRI are joined.
        frames: u64,
        /// The clauses that are not translated: their lines, from 1, with their tags.
        dropped: Items<(u32, Bytes)>,
    },
    /// An ontology was generated.
    Generated {
        /// The size that was asked for.
        n: u32,
        /// Its frames.
        frames: u64,
        /// The bytes of its text.
        bytes: u64,
    },
    /// The inputs were merged into these axioms.
    Merged(Counts),
    /// A module was extracted.
    Extracted {
        /// How it was chosen.
        method: Bytes,
        /// The axioms that were shipped.
        counts: Counts,
        /// The terms of the seed that the axioms before did not know.
        unknown: u64,
        /// The rounds that it took.
        rounds: u64,
    },
    /// Subclass axioms that follow were added.
    Reasoned {
        /// How many were added.
        added: u64,
        /// The logical axioms that the reasoning does not use.
        unused: u64,
    },
    /// Subclass axioms that equivalences say were added.
    Relaxed {
        /// How many were added.
        added: u64,
    },
    /// Subclass axioms that follow from others were removed.
    Reduced {
        /// How many were removed.
        removed: u64,
    },
    /// A file was written.
    Written {
        /// Its name.
        name: Bytes,
        /// Its bytes.
        bytes: u64,
    },
    /// The text of a generated ontology was made; it goes to no file.
    Printed {
        /// Its bytes.
        bytes: u64,
    },
}
