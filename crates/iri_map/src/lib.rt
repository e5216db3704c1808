//! Ids and IRIs. An id of an OBO file and the name of its ontology give an IRI, and an IRI gives the one id
//! that the layers above write for it. Each call here is a definition of `specs/`, for every input. The
//! layers above read and write ids by `iri_of` and `id_of` in an ontology of the name that `name_or_temp`
//! gives, name ontologies by `ontology_iri` and `ontology_value`, and use of these four what `laws` says;
//! the calls of `escape`, `split` and the rest of `id` cut, escape and
//! decode texts for them.
#![tactic(auto)]

mod candidate;
mod escape;
mod id;
mod laws;
mod ontology;
mod readable;
mod split;

pub use candidate::id_of;
pub use escape::{decoded, push_part};
pub use id::{iri_of, is_canonical_id, is_url, url_iri};
pub use laws::{
    canonical_id_is_settled, id_is_candidate, id_is_settled, id_names_iri, iri_follows_forms,
    iri_has_id, iri_is_clean, name_is_settled, ontology_iri_is_clean,
};
pub use ontology::{name_or_temp, ontology_iri, ontology_value};
pub use split::{after_start, split_at_first};
