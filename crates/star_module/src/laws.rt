//! What rounds of modules keep, and how their end is told. Each law is the contract of a function that does nothing.
ghost use Rattle.star_module.specs.Laws.{RoundsKeep, StarIsTold};

use owl_axioms::ClassExpr;
use owl_ontology::Ontology;

/// What rounds of modules end with keeps the axioms that they began with.
pub fn rounds_keep()
    ensures { RoundsKeep }
{}

/// The plain function gives what the rounds end with, and they end with nothing else.
pub fn star_is_told()
    ensures { StarIsTold }
{}
