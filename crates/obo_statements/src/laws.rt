//! What the meaning and the spelling of statements and groups amount to. Each law is the contract of a function that does
//! nothing.
ghost use Rattle.obo_statements.specs.Laws.{
  GroupFitsIn,
  GroupInOrderIn,
  GroupReadsBackIn,
  StatementFitsIn,
  StatementReadsBackIn,
};

use rel_io::Bytes;

/// The clause of a statement states it, in an ontology of any name.
pub fn statement_reads_back(space: &Bytes)
    ensures { StatementReadsBackIn space.now }
{}

/// The clause of a statement is one that some line spells.
pub fn spelled_statements_fit(space: &Bytes)
    ensures { StatementFitsIn space.now }
{}

/// The clauses of a group say its axiom, whatever their order.
pub fn group_reads_back(space: &Bytes)
    ensures { GroupReadsBackIn space.now }
{}

/// The clauses of a group are such that lines spell them.
pub fn spelled_groups_fit(space: &Bytes)
    ensures { GroupFitsIn space.now }
{}

/// The clauses of a group stand in the order of their printed values, and of equal ones in that of the printed blocks of
/// their qualifiers with a meaning of their own; each once.
pub fn groups_are_in_order(space: &Bytes)
    ensures { GroupInOrderIn space.now }
{}
