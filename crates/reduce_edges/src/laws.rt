//! What walks along inclusions mean, and what the plain functions tell. Each law is the contract of a function that does
//! nothing.
ghost use Rattle.reduce_edges.specs.Laws.{GoesIsGoes, ReachEntails, ReachesIsReach, ReduceOfReduces};

use owl_ontology::Ontology;

/// Where a class reaches another, axioms entail that it is a subclass of it.
pub fn reach_entails()
    ensures { ReachEntails }
{}

/// The plain function tells where a class reaches another.
pub fn reaches_is_reach()
    ensures { ReachesIsReach }
{}

/// The plain function tells which axioms go.
pub fn goes_is_goes()
    ensures { GoesIsGoes }
{}

/// What the plain function makes of an ontology is that ontology after reducing, with the number of what is gone.
pub fn reduce_of_reduces(before: &Ontology, keep_annotated: bool)
    ensures { ReduceOfReduces before.now keep_annotated }
{}
