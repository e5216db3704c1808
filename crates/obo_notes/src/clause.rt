//! `clause_of`: the clause that says a note.
ghost use Rattle.std.specs.Prelude.{◌≡◌, IfOk};
ghost use Rattle.obo_notes.specs.Context.{writing_in};
ghost use Rattle.obo_notes.specs.Notes.{spelling};
ghost use Rattle.obo_notes.specs.inner.Rows.{clause_in};

use crate::Note;
use crate::forms::{Row, rows, stands};
use crate::spelled::clause_by;
use obo_clause::Clause;
use obo_tags::FrameKind;
use rel_io::{Bytes, NoMemory};
use std::alloc::Global;

/// The clause that says a note in a frame of the kind, in an ontology of this name: that of the first tag in printed order
/// that gives it, and `property_value` only where no other tag does. `None` exactly where no tag gives it. It takes time in
/// proportion to the note, but for the sort of its parts.
pub fn clause_of(
    alloc: Global,
    space: &Bytes,
    kind: FrameKind,
    note: &Note,
) -> Result<Option<Clause>, NoMemory>
    ensures exact { IfOk result (λ clause. clause ≡ spelling (writing_in space.now) kind note.now) }
{
    let table = rows();
    for row in table {
        match clause_in(alloc, space, kind, note, row)? {
            Some(clause) => return Ok(Some(clause)),
            None => {}
        }
    }
    Ok(None)
}

/// The clause of the row's tag that says the note, if there is one in frames of the kind.
fn clause_in(
    alloc: Global,
    space: &Bytes,
    kind: FrameKind,
    note: &Note,
    row: &Row,
) -> Result<Option<Clause>, NoMemory>
    ensures { IfOk result (λ clause. clause ≡ clause_in (writing_in space.now) kind note.now row.now) }
{
    if stands(kind, row) {
        clause_by(alloc, space, row.0, row.1, note)
    } else {
        Ok(None)
    }
}
