//! What printing amounts to. Each law is the contract of a function that does nothing.
ghost use Rattle.clause_printer.specs.Laws.{PrintedApart, SpelledIfFit, SpellsAgain, SpellsCommented};

use obo_clause::Clause;

/// The printed line of a clause says the clause again, wherever some line says it.
pub fn printed_line_spells_again(clause: &Clause)
    ensures { SpellsAgain clause.now }
{}

/// A line spells a clause exactly where the parts of the clause are as they have to be.
pub fn spelled_clauses_fit(clause: &Clause)
    ensures { SpelledIfFit clause.now }
{}

/// A name in a comment behind the printed line says nothing, where the tag is not foreign.
pub fn comment_says_nothing(clause: &Clause)
    ensures { SpellsCommented clause.now }
{}

/// Different clauses are printed as different lines, in one place of a frame.
pub fn clauses_are_printed_apart(clause: &Clause)
    ensures { PrintedApart clause.now }
{}
