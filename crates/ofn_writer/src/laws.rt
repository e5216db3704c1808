//! What the definitions of this crate amount to. Each law is the contract of a function that changes nothing.
ghost use Rattle.std.specs.Prelude.{ℕ, List};
ghost use Rattle.ofn_writer.specs.Laws.{AreInOrder, TextsGoBySets};

use owl_ontology::Ontology;

/// Ontologies of one name with the same axioms have one text, whatever the order and the origins. The calls of `len` bring
/// that all axioms are different.
pub fn texts_go_by_sets(one: &Ontology, other: &Ontology)
    ensures { TextsGoBySets one.now other.now }
{
    let _different = one.len();
    let _others_different = other.len();
}

/// What is sorted rises byte by byte, and each text stands there as often as before.
pub fn lines_are_in_order()
    ensures { (texts : List (List ℕ)) → AreInOrder texts }
{}
