//! What can be written as a document. Each law is the contract of a function that does nothing.
ghost use Rattle.spelling_laws.specs.Laws.{
  GatheringKeepsSpelling,
  IdsGoByNoName,
  InclusionsKeepSpelling,
  MergingKeepsSpelling,
  NamedClassesHaveIds,
  PartKeepsSpelling,
  ReadCanBeWritten,
  SpellableIsOfSet,
};

/// An IRI that has an id in an ontology of one name has one in an ontology of any name.
pub fn ids_go_by_no_name()
    ensures { IdsGoByNoName }
{}

/// Whether an ontology can be written goes by the set of its axioms.
pub fn spellable_is_of_set()
    ensures { SpellableIsOfSet }
{}

/// Under the name of a document, the axioms that it says can be written.
pub fn read_can_be_written()
    ensures { ReadCanBeWritten }
{}

/// Axioms of two ontologies that can be written can be written together, where all that is declared stays declared.
pub fn gathering_keeps_spelling()
    ensures { GatheringKeepsSpelling }
{}

/// Two ontologies that can be written can be written as one, without the second one's notes about the ontology.
pub fn merging_keeps_spelling()
    ensures { MergingKeepsSpelling }
{}

/// A part of what can be written can be written, where all that its axioms are stated of stays declared.
pub fn part_keeps_spelling()
    ensures { PartKeepsSpelling }
{}

/// Inclusions of declared classes in classes and restrictions that can be written can be added.
pub fn inclusions_keep_spelling()
    ensures { InclusionsKeepSpelling }
{}

/// Where axioms can be written, each class that they name has an id.
pub fn named_classes_have_ids()
    ensures { NamedClassesHaveIds }
{}
