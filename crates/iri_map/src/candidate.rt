//! The id that an IRI is written by.
ghost use Rattle.std.specs.Prelude.{◌≡◌, ◌↔◌, ◌∷◌, [], IfOk, IfSome, IsNone, IsTrue, Some};
ghost use Rattle.std.specs.List.{filter_map, find};
ghost use Rattle.std.specs.Option.{option_to_list};
ghost use Rattle.iri_map.specs.Candidate as spec;
ghost use Rattle.iri_map.specs.Id.{iri_of};
ghost use Rattle.rel_io.specs.Texts.{is_readable};

use crate::escape::{decoded, push_decoded, push_part};
use crate::id::{after_base, begun, iri_of};
use crate::readable::is_readable;
use crate::split::{after_start, split_at_first, split_at_last};
use rel_io::{Bytes, Iri, NoMemory};
use std::alloc::Global;

/// The id that an IRI is written by in an ontology of this name: of the four forms, read backwards in the
/// order canonical, prefixed, plain, URL, the first that an OBO line can hold (not empty, UTF-8 and without a
/// carriage return) and whose IRI is this one. `None` exactly where no id that a line can hold has this IRI.
pub fn id_of(alloc: Global, iri: &Iri, ontology: &Bytes) -> Result<Option<Bytes>, NoMemory>
    ensures exact { IfOk result (λ id. id ≡ spec.id_of iri.now ontology.now) }
    ensures missing { IfOk result (λ id. IsNone id ↔ spec.HasNoId iri.now ontology.now) }
    ensures readable { IfOk result (λ found. IfSome found (λ id. IsTrue (is_readable id))) }
    ensures names { IfOk result (λ found. IfSome found (λ id. iri_of id ontology.now ≡ iri.now)) }
{
    first_fitting(alloc, iri, ontology)
}

/// The first of the four candidates that fits.
#[tactic(auto, unfolding(crate::specs::Candidate::id_of, crate::specs::Candidate::candidates))]
fn first_fitting(alloc: Global, iri: &Iri, ontology: &Bytes) -> Result<Option<Bytes>, NoMemory>
    ensures { IfOk result (λ id. id ≡ spec.id_of iri.now ontology.now) }
{
    let canonical = canonical_candidate(alloc, iri.as_slice())?;
    match fitting(alloc, canonical, iri, ontology)? {
        Some(id) => Ok(Some(id)),
        None => behind_canonical(alloc, iri, ontology),
    }
}

/// The first that fits of the candidates behind the canonical one.
fn behind_canonical(alloc: Global, iri: &Iri, ontology: &Bytes) -> Result<Option<Bytes>, NoMemory>
    ensures { IfOk result (λ id. id ≡ find (spec.names_iri iri.now ontology.now) (filter_map (λ candidate. candidate)
        (spec.prefixed_candidate iri.now ∷ spec.plain_candidate iri.now ontology.now ∷ Some iri.now ∷ []))) }
{
    let prefixed = prefixed_candidate(alloc, iri.as_slice())?;
    match fitting(alloc, prefixed, iri, ontology)? {
        Some(id) => Ok(Some(id)),
        None => plain_or_url(alloc, iri, ontology),
    }
}

/// The first that fits of the last two candidates.
fn plain_or_url(alloc: Global, iri: &Iri, ontology: &Bytes) -> Result<Option<Bytes>, NoMemory>
    ensures { IfOk result (λ id. id ≡ find (spec.names_iri iri.now ontology.now) (filter_map (λ candidate. candidate)
        (spec.plain_candidate iri.now ontology.now ∷ Some iri.now ∷ []))) }
{
    let plain = plain_candidate(alloc, iri.as_slice(), ontology.as_slice())?;
    match fitting(alloc, plain, iri, ontology)? {
        Some(id) => Ok(Some(id)),
        None => {
            let url = Bytes::from_slice(alloc, iri.as_slice())?;
            fitting(alloc, Some(url), iri, ontology)
        }
    }
}

/// The candidate, where it is readable and names this IRI.
fn fitting(
    alloc: Global,
    candidate: Option<Bytes>,
    iri: &Iri,
    ontology: &Bytes,
) -> Result<Option<Bytes>, NoMemory>
    ensures { IfOk result
        (λ id. id ≡ find (spec.names_iri iri.now ontology.now) (option_to_list candidate)) }
{
    let Some(id) = candidate else {
        return Ok(None);
    };
    let fits = is_readable(id.as_slice())
        && iri_of(alloc, &id, ontology)?.as_slice() == iri.as_slice();
    Ok(fits.then_some(id))
}

/// What follows the base, with its last `_` read as `:`.
fn canonical_candidate(alloc: Global, iri: &[u8]) -> Result<Option<Bytes>, NoMemory>
    ensures { IfOk result (λ id. id ≡ spec.canonical_candidate iri.now) }
{
    let Some(rest) = after_base(iri) else {
        return Ok(None);
    };
    let Some((prefix, number)) = split_at_last(b'_', rest) else {
        return Ok(None);
    };
    let mut id = Vec::from_slice(alloc, prefix)?;
    id.push(b':')?;
    id.extend_from_slice(number)?;
    Ok(Some(Bytes::from_vec(id)))
}

/// What follows the base, split at its first `#`, which `_` must follow: both parts decoded, around a `:`.
fn prefixed_candidate(alloc: Global, iri: &[u8]) -> Result<Option<Bytes>, NoMemory>
    ensures { IfOk result (λ id. id ≡ spec.prefixed_candidate iri.now) }
{
    let Some(rest) = after_base(iri) else {
        return Ok(None);
    };
    let Some((prefix, behind)) = split_at_first(b'#', rest) else {
        return Ok(None);
    };
    let Some(local) = after_start(b"_", behind) else {
        return Ok(None);
    };
    let mut id = decoded(alloc, prefix)?;
    id.push(b':')?;
    push_decoded(&mut id, local)?;
    Ok(Some(Bytes::from_vec(id)))
}

/// What follows the base, the ontology's name and `#`, decoded.
fn plain_candidate(alloc: Global, iri: &[u8], ontology: &[u8]) -> Result<Option<Bytes>, NoMemory>
    ensures { IfOk result (λ id. id ≡ spec.plain_candidate iri.now ontology.now) }
{
    let mut start = begun(alloc)?;
    push_part(&mut start, ontology)?;
    start.push(b'#')?;
    let Some(rest) = after_start(start.as_slice(), iri) else {
        return Ok(None);
    };
    let id = decoded(alloc, rest)?;
    Ok(Some(Bytes::from_vec(id)))
}
