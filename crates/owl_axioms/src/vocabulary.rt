//! The IRIs of the entities that OWL, RDF Schema and XML Schema give a name.
ghost use Rattle.std.specs.Prelude.{◌≡◌};
ghost use Rattle.owl_axioms.specs.Vocabulary as spec;

/// The class of all things.
#[tactic(auto, unfolding(crate::specs::Vocabulary::owl_thing))]
pub fn owl_thing() -> &'static [u8]
    ensures { result.now ≡ spec.owl_thing }
{
    b"http://www.w3.org/2002/07/owl#Thing"
}

/// The class of nothing.
#[tactic(auto, unfolding(crate::specs::Vocabulary::owl_nothing))]
pub fn owl_nothing() -> &'static [u8]
    ensures { result.now ≡ spec.owl_nothing }
{
    b"http://www.w3.org/2002/07/owl#Nothing"
}

/// The annotation property of what is no longer to be used.
#[tactic(auto, unfolding(crate::specs::Vocabulary::owl_deprecated))]
pub fn owl_deprecated() -> &'static [u8]
    ensures { result.now ≡ spec.owl_deprecated }
{
    b"http://www.w3.org/2002/07/owl#deprecated"
}

/// The annotation property of names.
#[tactic(auto, unfolding(crate::specs::Vocabulary::rdfs_label))]
pub fn rdfs_label() -> &'static [u8]
    ensures { result.now ≡ spec.rdfs_label }
{
    b"http://www.w3.org/2000/01/rdf-schema#label"
}

/// The annotation property of remarks.
#[tactic(auto, unfolding(crate::specs::Vocabulary::rdfs_comment))]
pub fn rdfs_comment() -> &'static [u8]
    ensures { result.now ≡ spec.rdfs_comment }
{
    b"http://www.w3.org/2000/01/rdf-schema#comment"
}

/// What the IRI of each datatype of XML Schema begins with.
#[tactic(auto, unfolding(crate::specs::Vocabulary::xsd))]
pub fn xsd() -> &'static [u8]
    ensures { result.now ≡ spec.xsd }
{
    b"http://www.w3.org/2001/XMLSchema#"
}

/// The datatype of texts.
#[tactic(auto, unfolding(crate::specs::Vocabulary::xsd, crate::specs::Vocabulary::xsd_string))]
pub fn xsd_string() -> &'static [u8]
    ensures { result.now ≡ spec.xsd_string }
{
    b"http://www.w3.org/2001/XMLSchema#string"
}

/// The datatype of truth values.
#[tactic(auto, unfolding(crate::specs::Vocabulary::xsd, crate::specs::Vocabulary::xsd_boolean))]
pub fn xsd_boolean() -> &'static [u8]
    ensures { result.now ≡ spec.xsd_boolean }
{
    b"http://www.w3.org/2001/XMLSchema#boolean"
}
