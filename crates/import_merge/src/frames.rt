//! How many frames a document has.
ghost use Rattle.std.specs.Prelude.{◌≡◌, ◌++◌, [], ◌∷◌, IfOk, OnOk, filter, map};
ghost use Rattle.text_sets.specs.Sorted.{sorted_by};
ghost use Rattle.obo_frames.specs.Framed.{unlined};
ghost use Rattle.obo_mapping.specs.Documents.{space_of};
ghost use Rattle.import_merge.specs.Notes as spec;
ghost use Rattle.import_merge.specs.inner.Texts.{text_of};

use iri_map::{iri_of, name_or_temp};
use obo_frames::{Document, Placed, ontology_name};
use obo_tags::FrameKind;
use rel_io::{Bytes, Iri, NoMemory};
use std::alloc::Global;

/// What tells a frame from others.
#[derive(PartialEq, Eq, PartialOrd, Ord, Drop)]
pub struct FrameName {
    /// The number of its kind.
    pub kind: u8,
    /// The IRI of its id.
    pub iri: Iri,
}

/// How many frames a document has; those of one kind and IRI are one.
pub fn frame_count(alloc: Global, document: &Document) -> Result<u64, NoMemory>
    ensures { IfOk result (λ count. count ≡ spec.frame_count (map unlined document.now)) }
{
    let name = ontology_name(alloc, document)?;
    let space = name_or_temp(alloc, name.as_ref())?;
    let frames = frames_in(alloc, &space, document.as_slice())?;
    Ok(once(frames).as_slice().len() as u64)
}

/// The frames that the `id` clauses name, in their order.
fn frames_in(alloc: Global, space: &Bytes, placed: &[Placed]) -> Result<Vec<FrameName>, NoMemory>
    ensures { IfOk result (λ frames. map text_of frames.items ≡
        map (spec.frame_key space.now) (filter spec.is_naming (map unlined placed.now))) }
{
    let mut frames = Vec::new(alloc);
    for one in placed {
        add_frame(alloc, space, &mut frames, one)?;
    }
    Ok(frames)
}

/// Appends the frame of a clause that names one.
fn add_frame(
    alloc: Global,
    space: &Bytes,
    frames: &mut Vec<FrameName>,
    one: &Placed,
) -> Result<(), NoMemory>
    ensures { OnOk result (map text_of frames.new.items ≡ map text_of frames.old.items ++
        map (spec.frame_key space.now) (filter spec.is_naming (unlined one.now ∷ []))) }
{
    if is_naming(one) {
        let frame = frame_of(alloc, space, one)?;
        frames.push(frame)?;
    }
    Ok(())
}

/// The frame in which a clause stands.
fn frame_of(alloc: Global, space: &Bytes, one: &Placed) -> Result<FrameName, NoMemory>
    ensures { IfOk result (λ frame. text_of frame ≡ spec.frame_key space.now (unlined one.now)) }
{
    let kind = kind_number(one.frame);
    let iri = iri_of(alloc, &one.id, space)?;
    Ok(FrameName { kind, iri })
}

/// Whether the clause names its frame.
fn is_naming(one: &Placed) -> bool
    ensures { result ≡ spec.is_naming (unlined one.now) }
{
    !matches!(one.frame, FrameKind::Header) && one.clause.tag.as_slice() == b"id".as_slice()
}

/// The number of a kind of frames.
fn kind_number(kind: FrameKind) -> u8
    ensures { result ≡ spec.kind_number kind }
{
    match kind {
        FrameKind::Header => 0,
        FrameKind::Term => 1,
        FrameKind::Typedef => 2,
        FrameKind::Instance => 3,
    }
}

/// The frames in their order, each once.
fn once(frames: Vec<FrameName>) -> Vec<FrameName>
    ensures { result.items ≡ sorted_by text_of frames.items }
{
    let mut frames = frames;
    frames.sort_unstable();
    frames.dedup();
    frames
}
