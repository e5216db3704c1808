//! What writing an ontology amounts to. Each law is the contract of a function that does nothing.
ghost use Rattle.obo_writer.specs.Laws.{BackIsNormal, SpacedBackIsNormal, TextsReadBack};

/// The text of the document of an ontology is read as its axioms, under its name, with the namespaces of frames that have
/// none.
pub fn texts_read_back()
    ensures { TextsReadBack }
{}

/// The document of an ontology is in normal form but for default namespaces: its normal form is the document of the axioms
/// with the namespaces of frames that have none.
pub fn document_is_normal()
    ensures { BackIsNormal }
{}

/// Where no frame lacks a namespace, the document of an ontology is its own normal form.
pub fn spaced_document_is_normal()
    ensures { SpacedBackIsNormal }
{}
