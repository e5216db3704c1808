//! What holds of every document. Each law is the contract of a function that does nothing.
ghost use Rattle.sound_documents.specs.Laws.{DocumentsAreSound, SaidIsProper};

/// The clauses of every document are sound as a set, as the laws of the mapping and of the normal form ask.
pub fn documents_are_sound()
    ensures { DocumentsAreSound }
{}

/// Each axiom that a document says is proper.
pub fn said_is_proper()
    ensures { SaidIsProper }
{}
