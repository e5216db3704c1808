//! The tables at small expressions and axioms, by which a reader can see what they say.
ghost use Rattle.locality_tables.specs.Examples.{LocalTable, VerdictTable};

use owl_axioms::ClassExpr;

/// What each constructor gives for bottom, for top, and where outside roles are the identity.
pub fn verdict_table()
    ensures { VerdictTable }
{}

/// Which axioms of each kind are local there, and which are not.
pub fn local_table()
    ensures { LocalTable }
{}
