//! What relaxing amounts to in models. Each law is the contract of a function that does nothing.
ghost use Rattle.relax_axioms.specs.Laws.{DefinitionEntails, MissingIsEntailed, RelaxOfRelaxes, RelaxingKeeps};

use owl_ontology::Ontology;

/// A definition alone entails that its class is a subclass of each operand.
pub fn definition_entails()
    ensures { DefinitionEntails }
{}

/// Each axiom that relaxing adds follows from those that are there.
pub fn missing_is_entailed()
    ensures { MissingIsEntailed }
{}

/// An ontology has the same models before relaxing and after.
pub fn relaxing_keeps(before: &Ontology, after: &Ontology)
    ensures { RelaxingKeeps before.now after.now }
{}

/// What the plain function makes of an ontology is that ontology after relaxing, with the number of what is added.
pub fn relax_of_relaxes(before: &Ontology)
    ensures { RelaxOfRelaxes before.now }
{}
