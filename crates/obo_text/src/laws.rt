//! What the canonical text amounts to. Each law is the contract of a function that does nothing.
ghost use Rattle.obo_text.specs.Laws.{IsOfSet, ReadsBack, Settles};

use obo_frames::Placed;

/// The canonical text of a sound document is a file with the same clauses in the same frames.
pub fn text_reads_back(line_limit: u32, placed: &[Placed])
    ensures { ReadsBack line_limit placed.now }
{}

/// The canonical text depends on the set of clauses alone.
pub fn text_is_of_set(placed: &[Placed])
    ensures { IsOfSet placed.now }
{}

/// The canonical text reads without a fault, and what it reads as has the same text.
pub fn text_is_settled(line_limit: u32, placed: &[Placed])
    ensures { Settles line_limit placed.now }
{}
