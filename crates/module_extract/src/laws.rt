//! What modules keep, and how they are told. Each law is the contract of a function that does nothing.
ghost use Rattle.module_extract.specs.Laws.{ClosedExtends, ClosedKeeps, ModuleIsTold, ShippedKeeps};

use locality_tables::Finding;
use owl_axioms::ClassExpr;
use owl_ontology::Ontology;

/// A model of a closed part, filled, is a model of the axioms that the part was taken from.
pub fn closed_extends()
    ensures { ClosedExtends }
{}

/// So a closed part keeps them over the seed and its own names.
pub fn closed_keeps()
    ensures { ClosedKeeps }
{}

/// The plain function gives the module, and nothing else is the module.
pub fn module_is_told()
    ensures { ModuleIsTold }
{}

/// What is shipped with a part keeps all axioms wherever the part keeps the logical ones.
pub fn shipped_keeps()
    ensures { ShippedKeeps }
{}
