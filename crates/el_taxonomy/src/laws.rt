//! What reasoning amounts to in models. Each law is the contract of a function that does nothing.
ghost use Rattle.el_taxonomy.specs.Laws.{BelowIsEntailed, InferredIsEntailed, ReasoningKeeps};

use owl_axioms::ClassExpr;
use owl_ontology::Ontology;

/// That a class is below another follows from the axioms where it is derived.
pub fn below_is_entailed()
    ensures { BelowIsEntailed }
{}

/// Each axiom that reasoning adds follows from those that are there.
pub fn inferred_is_entailed()
    ensures { InferredIsEntailed }
{}

/// Before reasoning and after there are the same models.
pub fn reasoning_keeps(before: &Ontology, after: &Ontology)
    ensures { ReasoningKeeps before.now after.now }
{}
