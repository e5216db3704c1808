//! What the mapping amounts to. The law is the contract of a function that does nothing.
ghost use Rattle.obo_mapping.specs.Back.{AxiomsReadBack};

/// The document of an ontology says its axioms, with the namespaces of frames that have none, under its name.
pub fn axioms_read_back()
    ensures { AxiomsReadBack }
{}
