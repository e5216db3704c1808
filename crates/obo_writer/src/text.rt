//! `obo_text`: the document of an ontology, and its canonical text.
ghost use Rattle.std.specs.Prelude.{◌≡◌, ◌++◌, IfErr, IfOk, None, OnOk};
ghost use Rattle.owl_ontology.specs.Ontology.{axioms_of};
ghost use Rattle.obo_frames.specs.Soundness.{IsSound};
ghost use Rattle.obo_mapping.specs.Back.{IsSpellable};
ghost use Rattle.obo_mapping.specs.TwoValues.{two_values};
ghost use Rattle.owl_to_obo.specs.Faults.{IsFault};
ghost use Rattle.obo_writer.specs.Text as spec;
ghost use Rattle.obo_writer.specs.Text.{ReadsBack};

use crate::missing::missing_clauses;
use crate::texts_read_back;
use obo_frames::{Document, Placed};
use obo_text::canonical_text;
use owl_ontology::Ontology;
use owl_to_obo::{BackFault, back};
use rel_io::{Bytes, Dup, NoMemory};
use std::alloc::Global;

/// The canonical text of the document that says the axioms of the ontology, each of which has to have a form in OBO. Where
/// one frame would have two values of a tag that stands once, these: notes are looked at where `check` asks for it. It takes
/// the time of sorts.
pub fn obo_text(alloc: Global, ontology: &Ontology, check: bool) -> Result<Bytes, BackFault>
    requires spellable { IsSpellable ontology.now.name (axioms_of ontology.now.entries) }
    ensures text { IfOk result (λ text. text ≡ spec.obo_text ontology.now) }
    ensures reads_back { OnOk result (ReadsBack ontology.now) }
    ensures told { OnOk result (two_values ontology.now.name check ontology.now.entries ≡ None) }
    ensures fault { IfErr result (IsFault ontology.now.name check ontology.now.entries) }
{
    texts_read_back();
    let document = back(alloc, ontology, check)?;
    // The length tells what every document keeps.
    let _count = document.len();
    // The document is in normal form but for these clauses.
    let missing = missing_clauses(alloc, ontology)?;
    let normal = joined(alloc, document, missing)?;
    let text = canonical_text(alloc, &normal)?;
    Ok(Bytes::from_vec(text))
}

/// A document with more clauses. Where there are none, nothing is copied.
fn joined(alloc: Global, document: Document, more: Vec<Placed>) -> Result<Document, NoMemory>
    requires { IsSound (document ++ more.items) }
    ensures { IfOk result (λ whole. whole ≡ document ++ more.items) }
{
    if more.is_empty() {
        return Ok(document);
    }
    let mut placed = copied(alloc, document.as_slice())?;
    let mut more = more;
    placed.append(&mut more)?;
    Ok(Document::of(placed))
}

/// A copy of clauses.
fn copied(alloc: Global, clauses: &[Placed]) -> Result<Vec<Placed>, NoMemory>
    ensures { IfOk result (λ twins. twins.items ≡ clauses.now) }
{
    let mut twins = Vec::with_capacity(alloc, clauses.len())?;
    for clause in clauses {
        let twin = clause.copy(alloc)?;
        twins.push(twin)?;
    }
    Ok(twins)
}
