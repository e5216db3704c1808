//! The laws of ids and IRIs: functions that do nothing, whose contracts are the laws.
ghost use Rattle.std.specs.Prelude.{IsTrue};
ghost use Rattle.rel_io.specs.Texts.{is_clean_iri};
ghost use Rattle.iri_map.specs.Laws as law;
ghost use Rattle.iri_map.specs.Id.{iri_of};
ghost use Rattle.iri_map.specs.Ontology.{ontology_iri};

use rel_io::{Bytes, Iri};

/// The IRI of an id, form by form, in the parts of which the id is made.
pub fn iri_follows_forms(id: &Bytes, ontology: &Bytes)
    ensures { law.FollowsForms id.now ontology.now }
{}

/// What `id_of` gives can stand in a line and has the IRI, for every name of an ontology.
pub fn id_names_iri(iri: &Iri, ontology: &Bytes)
    ensures { law.IdNamesIri iri.now ontology.now }
{}

/// The IRI of an id is never without an id: where nothing shorter fits, it stands for itself as a URL.
pub fn iri_has_id(id: &Bytes, ontology: &Bytes)
    ensures { law.IriHasId id.now ontology.now }
{}

/// An id that can stand in a line and is no URL is a candidate of its own IRI: each form is read back.
pub fn id_is_candidate(id: &Bytes, ontology: &Bytes)
    ensures { law.IdIsCandidate id.now ontology.now }
{}

/// An id that `id_of` gives is the id of its own IRI: what is once normalised stays as it is.
pub fn id_is_settled(iri: &Iri, ontology: &Bytes)
    ensures { law.IdIsSettled iri.now ontology.now }
{}

/// A canonical id, a prefix with a number, is the id of its own IRI.
pub fn canonical_id_is_settled(prefix: &Bytes, number: &Bytes, ontology: &Bytes)
    ensures { law.CanonicalIdIsSettled prefix.now number.now ontology.now }
{}

/// The normalised value of an ontology's name gives the same IRI, and is its own normalised value.
pub fn name_is_settled(value: &Bytes)
    ensures { law.NameIsSettled value.now }
{}

/// The IRI of an id is a URL with nothing to escape, whatever the id is: it can stand between `<` and `>`.
pub fn iri_is_clean(id: &Bytes, ontology: &Bytes)
    ensures url { law.IsCleanUrl (iri_of id.now ontology.now) }
    ensures clean { IsTrue (is_clean_iri (iri_of id.now ontology.now)) }
{}

/// The IRI of an ontology is such a URL too, whatever its name is.
pub fn ontology_iri_is_clean(value: &Bytes)
    ensures url { law.IsCleanUrl (ontology_iri value.now) }
    ensures clean { IsTrue (is_clean_iri (ontology_iri value.now)) }
{}
