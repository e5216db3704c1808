//! The IRIs of the annotation properties that clauses have, and of datatypes.
ghost use Rattle.std.specs.Prelude.{◌≡◌, codes};
ghost use Rattle.owl_axioms.specs.Vocabulary as owl;
ghost use Rattle.obo_notes.specs.Vocabulary as spec;

/// What the IRI of each property of oboInOwl begins with.
#[tactic(auto, unfolding(crate::specs::Vocabulary::obo_in_owl))]
pub fn obo_in_owl() -> &'static [u8]
    ensures { result.now ≡ spec.obo_in_owl }
{
    b"http://www.geneontology.org/formats/oboInOwl#"
}

/// What the IRI of each datatype of XML Schema begins with.
#[tactic(auto, unfolding(crate::specs::Vocabulary::xsd))]
pub fn xsd() -> &'static [u8]
    ensures { result.now ≡ spec.xsd }
{
    b"http://www.w3.org/2001/XMLSchema#"
}

/// The datatype of texts.
#[tactic(auto, unfolding(crate::specs::Vocabulary::xsd))]
pub fn xsd_string() -> &'static [u8]
    ensures { result.now ≡ spec.xsd_string }
{
    b"http://www.w3.org/2001/XMLSchema#string"
}

/// The datatype of truth values.
#[tactic(auto, unfolding(crate::specs::Vocabulary::xsd))]
pub fn xsd_boolean() -> &'static [u8]
    ensures { result.now ≡ spec.xsd_boolean }
{
    b"http://www.w3.org/2001/XMLSchema#boolean"
}

/// The property of names and of labels.
#[tactic(auto, unfolding(owl_axioms::specs::Vocabulary::rdfs_label))]
pub fn rdfs_label() -> &'static [u8]
    ensures { result.now ≡ owl.rdfs_label }
{
    b"http://www.w3.org/2000/01/rdf-schema#label"
}

/// The property of comments and of descriptions.
#[tactic(auto, unfolding(crate::specs::Vocabulary::rdfs_comment))]
pub fn rdfs_comment() -> &'static [u8]
    ensures { result.now ≡ spec.rdfs_comment }
{
    b"http://www.w3.org/2000/01/rdf-schema#comment"
}

/// The property of definitions.
#[tactic(auto, unfolding(crate::specs::Vocabulary::iao_definition))]
pub fn iao_definition() -> &'static [u8]
    ensures { result.now ≡ spec.iao_definition }
{
    b"http://purl.obolibrary.org/obo/IAO_0000115"
}

/// The property of dbxrefs.
#[tactic(auto, unfolding(crate::specs::Vocabulary::obo_in_owl))]
pub fn has_dbxref() -> &'static [u8]
    ensures { result.now ≡ spec.has_dbxref }
{
    b"http://www.geneontology.org/formats/oboInOwl#hasDbXref"
}

/// The property of the types of synonyms.
#[tactic(auto, unfolding(crate::specs::Vocabulary::obo_in_owl))]
pub fn has_synonym_type() -> &'static [u8]
    ensures { result.now ≡ spec.has_synonym_type }
{
    b"http://www.geneontology.org/formats/oboInOwl#hasSynonymType"
}

/// The property of the scopes of synonym types.
#[tactic(auto, unfolding(crate::specs::Vocabulary::obo_in_owl))]
pub fn has_scope() -> &'static [u8]
    ensures { result.now ≡ spec.has_scope }
{
    b"http://www.geneontology.org/formats/oboInOwl#hasScope"
}

/// The property of subsets.
#[tactic(auto, unfolding(crate::specs::Vocabulary::obo_in_owl))]
pub fn subset_def() -> &'static [u8]
    ensures { result.now ≡ spec.own_property (codes "subsetdef") }
{
    b"http://www.geneontology.org/formats/oboInOwl#subsetdef"
}

/// The property of synonym types.
#[tactic(auto, unfolding(crate::specs::Vocabulary::obo_in_owl))]
pub fn synonym_type_def() -> &'static [u8]
    ensures { result.now ≡ spec.own_property (codes "synonymtypedef") }
{
    b"http://www.geneontology.org/formats/oboInOwl#synonymtypedef"
}
