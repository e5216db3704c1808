//! What the definitions of lines amount to, proved once for all layers above.
ghost use Rattle.obo_clause.specs.Laws.{FailsOneWay, ForeignIfRaw, HasAnswer, NeverSaysAndFails, SaysOneThing, SpellsOneClause};

use crate::Clause;
use obo_tags::FrameKind;

/// A line says at most one thing, so it spells at most one clause.
pub fn line_says_one_thing(kind: FrameKind, first: bool, line: &[u8])
    ensures says { SaysOneThing kind first line.now }
    ensures spells { SpellsOneClause kind first line.now }
{}

/// At most one thing is wrong with a line: what is met first from left to right.
pub fn line_fails_one_way(kind: FrameKind, first: bool, line: &[u8])
    ensures { FailsOneWay kind first line.now }
{}

/// Nothing is wrong with a line that says something.
pub fn line_never_says_and_fails(kind: FrameKind, first: bool, line: &[u8])
    ensures { NeverSaysAndFails kind first line.now }
{}

/// Each line says something, or something is wrong with it.
pub fn line_has_answer(kind: FrameKind, first: bool, line: &[u8])
    ensures { HasAnswer kind first line.now }
{}

/// A clause is foreign exactly where its tag, in its place, is one that the frame does not have.
pub fn foreign_clauses_are_raw(clause: &Clause)
    ensures { ForeignIfRaw clause.now }
{}
