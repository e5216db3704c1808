//! What normal forms amount to. Each law is the contract of a function that does nothing.
ghost use Rattle.obo_mapping.specs.Back.{OwlIsSpellable};
ghost use Rattle.obo_normal_form.specs.NormLaws.{NormIsInOrder, NormIsSound, NormOfAxioms, NormOnce, NormSays, OwlSpaced};

/// The normal form has the name and the axioms of the document.
pub fn norm_says()
    ensures { NormSays }
{}

/// What is normal stays as it is.
pub fn norm_once()
    ensures { NormOnce }
{}

/// The normal form of a document that is translated as a whole is given by its name and axioms.
pub fn norm_is_of_axioms()
    ensures { NormOfAxioms }
{}

/// The axioms of such a document have the namespaces of all frames.
pub fn owl_is_spaced()
    ensures { OwlSpaced }
{}

/// The axioms of a document have forms, and no name in them stands for two.
pub fn owl_is_spellable()
    ensures { OwlIsSpellable }
{}

/// The normal form of a sound document is sound.
pub fn norm_is_sound()
    ensures { NormIsSound }
{}

/// In each clause of the normal form the xref list and the qualifiers stand in the order of what is printed of them.
pub fn norm_is_in_order()
    ensures { NormIsInOrder }
{}
