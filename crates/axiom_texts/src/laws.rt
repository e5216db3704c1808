//! What texts tell of axioms. Each law is the contract of a function that does nothing.
ghost use Rattle.axiom_texts.specs.Examples.{TextTable};
ghost use Rattle.axiom_texts.specs.Laws.{AlikeHaveOneText, TextAndKindTellAxiom, TextTellsAxiom};

use owl_axioms::Axiom;

/// Proper axioms with one text are the same axiom, or notes that are alike but for the kind of the entity that they are
/// about.
pub fn text_tells_axiom(one: &Axiom, other: &Axiom)
    ensures { TextTellsAxiom one.now other.now }
{}

/// Axioms that are so alike have one text, so that nothing less holds.
pub fn alike_have_one_text(one: &Axiom, other: &Axiom)
    ensures { AlikeHaveOneText one.now other.now }
{}

/// Proper axioms with one text are the same axiom, where both are notes about entities of one kind, or neither is a note.
pub fn text_and_kind_tell_axiom(one: &Axiom, other: &Axiom)
    ensures { TextAndKindTellAxiom one.now other.now }
{}

/// The texts of two axioms are those that were worked out by hand, and two notes that differ have one text.
pub fn texts_are_those()
    ensures { TextTable }
{}
