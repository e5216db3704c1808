//! Where an axiom comes from.
use rel_io::{Dup, NoMemory};
use std::alloc::Global;

/// A place in the input: ordered by file, then by line. An axiom that a step added has file 0 and line 0.
#[derive(Clone, Copy, PartialEq, Eq, PartialOrd, Ord)]
pub struct Origin {
    /// The place in the list of files, from 0.
    pub file: u32,
    /// The line of that file, from 1.
    pub line: u32,
}

impl Dup for Origin {
    fn copy(&self, _alloc: Global) -> Result<Origin, NoMemory> {
        Ok(*self)
    }
}
