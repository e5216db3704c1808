//! A small interpretation, by which a reader can see what the definitions say.
ghost use Rattle.owl_sem.specs.Examples.{AxiomTable, ExpressionTable, IndividualTable};

use owl_axioms::ClassExpr;

/// Each constructor has the elements that it should have there, and lacks the others.
pub fn bicycle_has_members()
    ensures { ExpressionTable }
{}

/// An individual is its first entry that counts, and 0 without one.
pub fn bicycle_has_individuals()
    ensures { IndividualTable }
{}

/// Each kind of axiom is satisfied there where it should be, and not where it should not.
pub fn bicycle_satisfies_axioms()
    ensures { AxiomTable }
{}
