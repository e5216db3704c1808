//! The name of the ontology, as the header of a document gives it.
ghost use Rattle.std.specs.Prelude.{◌≡◌, IfOk, map};
ghost use Rattle.std.specs.Option.{option_copied};
ghost use Rattle.iri_map.specs.Ontology.{normalised};
ghost use Rattle.obo_frames.specs.Framed.{unlined};
ghost use Rattle.obo_frames.specs.Naming as spec;

use crate::standing::word_in;
use crate::{Document, Placed};
use iri_map::{name_or_temp, ontology_iri, ontology_value};
use obo_tags::FrameKind;
use rel_io::{Bytes, NoMemory};
use std::alloc::Global;
use std::cmp::Ordering;

/// The ontology's name: the least of the normalised names that the header gives. None: it gives none.
pub fn ontology_name(alloc: Global, document: &Document) -> Result<Option<Bytes>, NoMemory>
    ensures { IfOk result (λ name. name ≡ spec.name_of (map unlined document.now)) }
{
    name_of(alloc, document.as_slice())
}

/// The name in which ids get their IRIs: the ontology's, or what stands in place of one.
pub fn space_of(alloc: Global, placed: &[Placed]) -> Result<Bytes, NoMemory>
    ensures { IfOk result (λ name. name ≡ spec.space_of (map unlined placed.now)) }
{
    let name = name_of(alloc, placed)?;
    name_or_temp(alloc, name.as_ref())
}

/// The least of the normalised names that the header gives.
fn name_of(alloc: Global, placed: &[Placed]) -> Result<Option<Bytes>, NoMemory>
    ensures { IfOk result (λ name. name ≡ spec.name_of (map unlined placed.now)) }
{
    let mut best = None;
    for one in placed {
        if let Some(value) = ontology_in(one) {
            let text = normalised(alloc, value)?;
            best = Some(lesser_text(best, text));
        }
    }
    Ok(best)
}

/// The value of an `ontology` clause of the header.
fn ontology_in(placed: &Placed) -> Option<&Bytes>
    ensures { option_copied result ≡ spec.ontology_in placed.now.frame placed.now.clause }
{
    if matches!(placed.frame, FrameKind::Header)
        && placed.clause.tag.as_slice() == b"ontology".as_slice()
    {
        word_in(&placed.clause.value)
    } else {
        None
    }
}

/// The normalised value of a name.
fn normalised(alloc: Global, value: &Bytes) -> Result<Bytes, NoMemory>
    ensures { IfOk result (λ name. name ≡ normalised value.now) }
{
    let iri = ontology_iri(alloc, value)?;
    ontology_value(alloc, &iri)
}

/// The lesser of two texts, the first of which may be missing.
fn lesser_text(best: Option<Bytes>, text: Bytes) -> Bytes
    ensures { result ≡ spec.lesser_text best text }
{
    match best {
        Some(best) => match text.cmp(&best) {
            Ordering::Less => text,
            _ => best,
        },
        None => text,
    }
}
