//! The bound of tests at a small part, by which a reader can see what it says.
ghost use Rattle.module_extract.specs.Examples.{ChainBound};

use owl_ontology::Ontology;

/// Four axioms with ten names may take fourteen tests.
pub fn chain_bound()
    ensures { ChainBound }
{}
