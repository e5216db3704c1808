//! The clauses of a document, each beside the IRI of its frame.
ghost use Rattle.std.specs.Prelude.{◌≡◌, ◌<◌, IfOk, IfSome, OnOk, Some, length, map, slice_get};
ghost use Rattle.std.specs.Option.{option_copied};
ghost use Rattle.iri_map.specs.Id.{iri_of};
ghost use Rattle.obo_to_owl.specs.inner.Rows.{AreIris, AreRead, Begins, EndsWith, IsOfFrame, clause_of};

use iri_map::iri_of;
use obo_frames::Placed;
use rel_io::{Bytes, Iri, NoMemory};
use std::alloc::Global;

/// A clause, and the IRI of its frame. That of the header means nothing.
#[derive(Clone, Copy)]
pub struct Row<'a> {
    /// The clause in its place.
    pub placed: &'a Placed,
    /// The IRI.
    pub iri: &'a Iri,
}

/// The IRIs of frames, and for each clause the place of that of its frame. Clauses that stand together in one frame share
/// one.
#[derive(Drop)]
pub struct Iris {
    /// The IRIs.
    pub texts: Vec<Iri>,
    /// The places in them, clause by clause.
    pub places: Vec<usize>,
}

/// The IRIs of the frames of a document, in an ontology of this name.
pub fn iris_of(alloc: Global, space: &Bytes, placed: &[Placed]) -> Result<Iris, NoMemory>
    ensures { IfOk result (λ iris. AreIris space.now placed.now iris.texts.items iris.places.items) }
{
    let mut texts = Vec::new(alloc);
    let mut places = Vec::with_capacity(alloc, placed.len())?;
    let mut last = None;
    for one in placed {
        push_iri(alloc, space, &mut texts, last, one)?;
        places.push(texts.as_slice().len() - 1)?;
        last = Some(one);
    }
    Ok(Iris { texts, places })
}

/// Appends the IRI of a clause's frame, where the last one is not of this frame.
fn push_iri(
    alloc: Global,
    space: &Bytes,
    texts: &mut Vec<Iri>,
    last: Option<&Placed>,
    one: &Placed,
) -> Result<(), NoMemory>
    requires { IfSome (option_copied last) (λ before. EndsWith (iri_of before.id space.now) texts.old.items) }
    ensures begins { OnOk result (Begins texts.old.items texts.new.items) }
    ensures ends { OnOk result (EndsWith (iri_of one.now.id space.now) texts.new.items) }
{
    if !is_of_frame(last, one) {
        let iri = iri_of(alloc, &one.id, space)?;
        texts.push(iri)?;
    }
    Ok(())
}

/// Whether the clause has the id of the one before it.
fn is_of_frame(last: Option<&Placed>, one: &Placed) -> bool
    ensures { IsOfFrame (option_copied last.entry) one.now result }
{
    match last {
        Some(before) => before.id == one.id,
        None => false,
    }
}

/// The clauses beside the IRIs of their frames.
pub fn rows_of<'a>(
    alloc: Global,
    space: &Bytes,
    placed: &'a [Placed],
    iris: &'a Iris,
) -> Result<Vec<Row<'a>>, NoMemory>
    requires { AreIris space.now placed.now iris.now.texts.items iris.now.places.items }
    ensures clauses { IfOk result (λ rows. map clause_of rows.items ≡ placed.now) }
    ensures read { IfOk result (λ rows. AreRead space.now rows.items) }
{
    let mut rows = Vec::with_capacity(alloc, placed.len())?;
    for at in 0..placed.len() {
        rows.push(row_at(space, placed, iris, at))?;
    }
    Ok(rows)
}

/// The clause at a place, and the IRI of its frame.
fn row_at<'a>(space: &Bytes, placed: &'a [Placed], iris: &'a Iris, at: usize) -> Row<'a>
    requires iris { AreIris space.now placed.now iris.now.texts.items iris.now.places.items }
    requires within { at < length placed.now }
    ensures clause { slice_get placed.now at ≡ Some (clause_of result) }
    ensures iri { result.iri.now ≡ iri_of result.placed.now.id space.now }
{
    let place = iris.places[at];
    let iri = iri_at(iris.texts.as_slice(), place);
    Row {
        placed: &placed[at],
        iri,
    }
}

/// The IRI at a place.
fn iri_at(texts: &[Iri], place: usize) -> &Iri
    requires { place < length texts.now }
    ensures { slice_get texts.now place ≡ Some result.now }
{
    &texts[place]
}
