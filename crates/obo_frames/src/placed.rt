//! Placed clauses, of which documents are made.
use obo_clause::Clause;
use obo_tags::FrameKind;
use rel_io::{Bytes, Dup, NoMemory};
use std::alloc::Global;

/// A clause, with the frame and the line in which it stands.
#[derive(PartialEq, Eq, Drop)]
pub struct Placed {
    /// The kind of the frame.
    pub frame: FrameKind,
    /// The id of the frame as its `id` clause has it; empty for the header.
    pub id: Bytes,
    /// The number of the line, from 1.
    pub line: u32,
    /// The clause, without qualifiers where it is the `id` clause that gives the frame its id.
    pub clause: Clause,
}

impl Dup for Placed {
    fn copy(&self, alloc: Global) -> Result<Placed, NoMemory> {
        let id = self.id.copy(alloc)?;
        let clause = self.clause.copy(alloc)?;
        Ok(Placed {
            frame: self.frame,
            id,
            line: self.line,
            clause,
        })
    }
}
