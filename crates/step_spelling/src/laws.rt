//! What can be written stays so. Each law is the contract of a function that does nothing.
ghost use Rattle.step_spelling.specs.Laws.{
  EdgesKeepSpelling,
  ExtractingKeepsSpelling,
  ReasoningKeepsSpelling,
  ReducingKeepsSpelling,
  RelaxingKeepsSpelling,
  ShippingKeepsSpelling,
};

/// An ontology that can be written can be written after relaxing.
pub fn relaxing_keeps_spelling()
    ensures { RelaxingKeepsSpelling }
{}

/// An ontology that can be written can be written after reducing.
pub fn reducing_keeps_spelling()
    ensures { ReducingKeepsSpelling }
{}

/// What is shipped with a part of an ontology that can be written can be written.
pub fn shipping_keeps_spelling()
    ensures { ShippingKeepsSpelling }
{}

/// An ontology that can be written can be written after an extract, by any method and for any seed.
pub fn extracting_keeps_spelling()
    ensures { ExtractingKeepsSpelling }
{}

/// An ontology that can be written can be written with more inclusions of declared classes in classes that it names.
pub fn edges_keep_spelling()
    ensures { EdgesKeepSpelling }
{}

/// An ontology that can be written can be written after reasoning.
pub fn reasoning_keeps_spelling()
    ensures { ReasoningKeepsSpelling }
{}
