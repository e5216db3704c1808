//! `two_values`: the least two values that one frame would have of a tag that stands once.
ghost use Rattle.std.specs.Prelude.{◌≡◌, IfOk, if◌then◌else◌, map};
ghost use Rattle.std.specs.Option.{option_map};
ghost use Rattle.obo_mapping.specs.TwoValues as spec;
ghost use Rattle.owl_to_obo.specs.Clashes.{given_meant, two_meant};
ghost use Rattle.owl_to_obo.specs.inner.Clashing as inner;

use crate::collected::all_given;
use crate::given::{Given, same_place, sorted_given};
use iri_map::name_or_temp;
use obo_spelling::Declared;
use owl_ontology::Ontology;
use rel_io::{Dup, NoMemory};
use std::alloc::Global;

/// Two values that one frame would have of one tag.
#[derive(Drop)]
pub struct TwoGiven {
    /// The lesser one.
    pub first: Given,
    /// The other one.
    pub second: Given,
}

/// The least two values that one frame would have of a tag that stands once; notes are looked at only where that is asked
/// for. `None` exactly where there are none. It takes the time of a sort.
pub fn two_values(
    alloc: Global,
    ontology: &Ontology,
    check: bool,
) -> Result<Option<TwoGiven>, NoMemory>
    ensures exact { IfOk result (λ two. option_map two_meant two ≡
        spec.two_values ontology.now.name check ontology.now.entries) }
{
    let declared = Declared::of(alloc, ontology)?;
    let space = name_or_temp(alloc, ontology.name())?;
    let all = all_given(alloc, &space, &declared, ontology, check)?;
    let sorted = sorted_given(all);
    first_clash(alloc, sorted.as_slice())
}

/// The first two that clash, where values of one tag of one frame stand side by side.
fn first_clash(alloc: Global, all: &[Given]) -> Result<Option<TwoGiven>, NoMemory>
    ensures { IfOk result (λ two. option_map two_meant two ≡ inner.first_clash (map given_meant all.now)) }
{
    match all.split_first() {
        Some((first, others)) => clash_from(alloc, first, others),
        None => Ok(None),
    }
}

/// The first that clashes with what begins the values of its tag.
fn clash_from(alloc: Global, first: &Given, others: &[Given]) -> Result<Option<TwoGiven>, NoMemory>
    ensures { IfOk result (λ two. option_map two_meant two ≡
        inner.clash_from (given_meant first.now) (map given_meant others.now)) }
{
    let mut start = first;
    for next in others {
        if clash(start, next) {
            return Ok(Some(both(alloc, start, next)?));
        }
        start = begins_run(start, next);
    }
    Ok(None)
}

/// Whether both are values of one tag of one frame, and differ.
fn clash(one: &Given, other: &Given) -> bool
    ensures { result ≡ spec.clash (given_meant one.now) (given_meant other.now) }
{
    same_place(one, other) && one.text != other.text
}

/// What begins the values of the tag of the frame of the next.
fn begins_run<'a>(start: &'a Given, next: &'a Given) -> &'a Given
    ensures { given_meant result.now ≡ inner.begins_run (given_meant start.now) (given_meant next.now) }
{
    if same_place(start, next) { start } else { next }
}

/// Copies of both.
fn both(alloc: Global, first: &Given, second: &Given) -> Result<TwoGiven, NoMemory>
    ensures { IfOk result (λ two. (two.first ≡ first.now) × (two.second ≡ second.now)) }
{
    let first = first.copy(alloc)?;
    let second = second.copy(alloc)?;
    Ok(TwoGiven { first, second })
}
