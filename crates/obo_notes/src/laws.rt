//! What the meaning and the spelling of notes amount to. Each law is the contract of a function that does nothing.
ghost use Rattle.obo_notes.specs.Laws.{
  NoteFitsIn,
  NoteHasClauseIn,
  NoteIsInOrderIn,
  NoteReadsBackIn,
};

use rel_io::Bytes;

/// The clause of a note says the note, in an ontology of any name.
pub fn note_reads_back(space: &Bytes)
    ensures { NoteReadsBackIn space.now }
{}

/// The note of a clause has a clause.
pub fn each_note_has_clause(space: &Bytes)
    ensures { NoteHasClauseIn space.now }
{}

/// The clause of a note is one that some line spells.
pub fn spelled_notes_fit(space: &Bytes)
    ensures { NoteFitsIn space.now }
{}

/// The clause of a note has the entries of its xref list and its qualifiers in the order of what is printed of them.
pub fn spelled_notes_are_in_order(space: &Bytes)
    ensures { NoteIsInOrderIn space.now }
{}
