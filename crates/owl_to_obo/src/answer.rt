//! `back`: the document of an ontology, or why there is none.
ghost use Rattle.std.specs.Prelude.{◌≡◌, IfErr, IfOk, None, OnOk, map};
ghost use Rattle.obo_frames.specs.Framed.{unlined};
ghost use Rattle.owl_ontology.specs.Ontology.{axioms_of};
ghost use Rattle.obo_mapping.specs.Back as spec;
ghost use Rattle.obo_mapping.specs.TwoValues.{two_values};
ghost use Rattle.owl_to_obo.specs.Clashes.{two_meant};
ghost use Rattle.owl_to_obo.specs.Faults as faults;
ghost use Rattle.owl_to_obo.specs.Faults.{IsFault};
ghost use Rattle.owl_to_obo.specs.declared.answer.BackFault.TheVariants as fault;

use crate::document::document_of;
use crate::least::{TwoGiven, two_values};
use obo_frames::Document;
use owl_ontology::{Ontology, Origin};
use rel_io::{Bytes, Iri, NoMemory};
use std::alloc::Global;

/// Why an ontology has no document.
#[derive(Drop)]
pub enum BackFault {
    /// One frame would have two values of a tag that stands once.
    TwoValues {
        /// The entity of the frame.
        iri: Iri,
        /// The tag.
        tag: Bytes,
        /// The lesser value, as it is printed.
        first: Bytes,
        /// The other one.
        second: Bytes,
        /// Where the axiom comes from that gives the first value.
        first_at: Origin,
        /// Where the axiom comes from that gives the second one.
        second_at: Origin,
    },
    /// No memory was left.
    NoMemory,
}

impl From<NoMemory> for BackFault {
    ghost from_gives = { λ _ made. made ≡ fault.NoMemory };

    fn from(_: NoMemory) -> BackFault {
        BackFault::NoMemory
    }
}

/// The document of the ontology: its header, and the clauses that say its axioms. Where one frame would have two values of
/// a tag that stands once, the least two of them: of notes where that is asked for, of groups of a class and of what a
/// Typedef stands for always. It takes the time of a sort.
pub fn back(alloc: Global, ontology: &Ontology, check: bool) -> Result<Document, BackFault>
    requires spellable { spec.IsSpellable ontology.now.name (axioms_of ontology.now.entries) }
    ensures document { IfOk result (λ document. map unlined document ≡
        spec.back ontology.now.name (axioms_of ontology.now.entries)) }
    ensures told { OnOk result (two_values ontology.now.name check ontology.now.entries ≡ None) }
    ensures fault { IfErr result (IsFault ontology.now.name check ontology.now.entries) }
{
    match two_values(alloc, ontology, check)? {
        Some(two) => Err(fault_of(two)),
        None => Ok(document_of(alloc, ontology)?),
    }
}

/// The fault of two values.
fn fault_of(two: TwoGiven) -> BackFault
    ensures { result ≡ faults.fault_of (two_meant two) }
{
    let TwoGiven { first, second } = two;
    BackFault::TwoValues {
        iri: first.iri,
        tag: first.tag,
        first: first.text,
        second: second.text,
        first_at: first.origin,
        second_at: second.origin,
    }
}
