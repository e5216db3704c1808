//! What the tables of locality amount to. Each law is the contract of a function that does nothing.
ghost use Rattle.locality_tables.specs.Laws.{FillsNamesAlways, LocalDependsOnNames, LocalHolds, TestsStayAlways, VerdictsHold, VerdictsStayAlways};

use owl_axioms::ClassExpr;

/// The fill of an interpretation fills the names outside, and leaves all others.
pub fn fills_names()
    ensures { FillsNamesAlways }
{}

/// What is empty or full with more names inside is so with fewer.
pub fn verdicts_stay()
    ensures { VerdictsStayAlways }
{}

/// What is local with more names inside is local with fewer.
pub fn tests_stay()
    ensures { TestsStayAlways }
{}

/// In each fill an expression with the verdict Empty has no element, and one with Full has every one.
pub fn verdicts_hold()
    ensures { VerdictsHold }
{}

/// Each fill satisfies each local axiom.
pub fn local_holds()
    ensures { LocalHolds }
{}

/// Whether an axiom is local depends on what the signature tells of its names.
pub fn local_depends_on_names()
    ensures { LocalDependsOnNames }
{}
