//! The name of an ontology, its IRI and its one normalised spelling.
ghost use Rattle.std.specs.Prelude.{◌≡◌, IfOk};
ghost use Rattle.std.specs.List.{find};
ghost use Rattle.std.specs.Option.{option_copied, option_to_list};
ghost use Rattle.iri_map.specs.Ontology as spec;

use crate::escape::{decoded, push_part};
use crate::id::{after_base, begun, is_url, url_iri};
use crate::readable::is_readable;
use crate::split::before_end;
use rel_io::{Bytes, Dup, Iri, NoMemory};
use std::alloc::Global;

/// What stands in place of a name in the IRIs of an ontology without one.
const TEMP: &[u8] = b"TEMP";

/// The name to read and write ids with: that of the ontology, or `TEMP` where it has none. Every call here
/// and above that takes the name of an ontology takes this one.
pub fn name_or_temp(alloc: Global, name: Option<&Bytes>) -> Result<Bytes, NoMemory>
    ensures { IfOk result (λ used. used ≡ spec.name_or_temp (option_copied name.entry)) }
{
    match name {
        Some(name) => name.copy(alloc),
        None => Bytes::from_slice(alloc, TEMP),
    }
}

/// The IRI of an ontology by a value of its header tag `ontology`: a URL names itself, and any other value
/// is a short name, as `go` of `http://purl.obolibrary.org/obo/go.owl`.
#[tactic(auto, unfolding(crate::specs::Ontology::ontology_iri))]
pub fn ontology_iri(alloc: Global, value: &Bytes) -> Result<Iri, NoMemory>
    ensures { IfOk result (λ iri. iri ≡ spec.ontology_iri value.now) }
{
    if is_url(value.as_slice()) {
        url_iri(alloc, value.as_slice())
    } else {
        short_name_iri(alloc, value.as_slice())
    }
}

/// The normalised value of an ontology's IRI: the short name that gives it, where there is one that an OBO
/// line can hold, and otherwise the IRI itself.
#[tactic(auto, unfolding(crate::specs::Ontology::ontology_value))]
pub fn ontology_value(alloc: Global, iri: &Iri) -> Result<Bytes, NoMemory>
    ensures exact { IfOk result (λ value. value ≡ spec.ontology_value iri.now) }
    ensures meaning { IfOk result (spec.IsNormalisedValue iri.now) }
{
    let candidate = short_name_candidate(alloc, iri.as_slice())?;
    if let Some(name) = short_name(alloc, candidate, iri)? {
        return Ok(name);
    }
    Bytes::from_slice(alloc, iri.as_slice())
}

/// The base, the name and `.owl`.
fn short_name_iri(alloc: Global, name: &[u8]) -> Result<Iri, NoMemory>
    ensures { IfOk result (λ iri. iri ≡ spec.short_name_iri name.now) }
{
    let mut iri = begun(alloc)?;
    push_part(&mut iri, name)?;
    iri.extend_from_slice(b".owl")?;
    Ok(Iri::from_vec(iri))
}

/// What stands between the base and `.owl`, decoded.
fn short_name_candidate(alloc: Global, iri: &[u8]) -> Result<Option<Bytes>, NoMemory>
    ensures { IfOk result (λ name. name ≡ spec.short_name_candidate iri.now) }
{
    let Some(rest) = after_base(iri) else {
        return Ok(None);
    };
    let Some(part) = before_end(b".owl", rest) else {
        return Ok(None);
    };
    let name = decoded(alloc, part)?;
    Ok(Some(Bytes::from_vec(name)))
}

/// The candidate, where it is readable, no URL, and gives this IRI.
fn short_name(alloc: Global, candidate: Option<Bytes>, iri: &Iri) -> Result<Option<Bytes>, NoMemory>
    ensures { IfOk result
        (λ name. name ≡ find (spec.is_short_name iri.now) (option_to_list candidate)) }
{
    let Some(name) = candidate else {
        return Ok(None);
    };
    let is_short = is_readable(name.as_slice())
        && !is_url(name.as_slice())
        && short_name_iri(alloc, name.as_slice())?.as_slice() == iri.as_slice();
    Ok(is_short.then_some(name))
}
