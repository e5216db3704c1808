//! What the definitions of this crate amount to. Each law is the contract of a function that changes nothing.
ghost use Rattle.owl_ontology.specs.Laws.{AddingIsOfSets, HeldKeepsLesser, HoldsBoth, LeastOriginStays, NewComesLast, OthersStay, SamenessIsEquivalence};

use crate::{Ontology, Origin};
use owl_axioms::Axiom;

/// One axiom more, as it is defined, comes last where no entry has it; where one has it, it keeps its place and
/// the lesser origin; and each other entry stays. The call of `len` brings that all axioms are different.
pub fn adding_keeps_the_lesser_origin(ontology: &Ontology, added: &Axiom, origin: &Origin)
    ensures new { NewComesLast ontology.now.entries added.now origin.now }
    ensures held { HeldKeepsLesser ontology.now.entries added.now origin.now }
    ensures other { OthersStay ontology.now.entries added.now origin.now }
{
    let _different = ontology.len();
}

/// Many entries more, one after the other: what is held then is what was held before or was added; each axiom has the
/// least of the origins that it had or was added with. The call of `len` brings that all axioms are different.
pub fn adding_many_keeps_the_least_origin(ontology: &Ontology, added: &Ontology)
    ensures both { HoldsBoth ontology.now.entries added.now.entries }
    ensures least { LeastOriginStays ontology.now.entries added.now.entries }
{
    let _different = ontology.len();
}

/// Which axioms are held then goes by the two sets of axioms alone.
pub fn adding_many_is_of_sets(
    ontology: &Ontology,
    added: &Ontology,
    other: &Ontology,
    more: &Ontology,
)
    ensures { AddingIsOfSets ontology.now.entries added.now.entries other.now.entries more.now.entries }
{}

/// To say the same is an equivalence.
pub fn sameness_is_equivalence(one: &Ontology, two: &Ontology, three: &Ontology)
    ensures { SamenessIsEquivalence one.now two.now three.now }
{}
