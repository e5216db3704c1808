//! Reducing: all decisions are made on the axioms as they are, and then those that go are dropped.
ghost use Rattle.std.specs.Prelude.{◌≡◌, IfOk, OnErr};
ghost use Rattle.owl_ontology.specs.Ontology.{axioms_of};
ghost use Rattle.owl_sem.specs.Laws.{KeepBoth};
ghost use Rattle.reduce_edges.specs.Laws.{AreEntailedBy, ReachIsSame};
ghost use Rattle.reduce_edges.specs.Reduce.{Reduces, reduce_of};

use crate::graph::{graph_of, redundant};
use crate::staying::staying;
use owl_ontology::Ontology;
use rel_io::NoMemory;
use std::alloc::Global;

/// Drops each axiom that says a redundant inclusion between classes, but for those with annotations where these are to stay,
/// and says how many these were. Cycles of every size included. Where no memory is left, nothing has happened.
pub fn reduce(alloc: Global, ontology: &mut Ontology, keep_annotated: bool) -> Result<u64, NoMemory>
    ensures exact { IfOk result (λ count. reduce_of keep_annotated ontology.old ≡ (ontology.new, count)) }
    ensures reduced { IfOk result (Reduces ontology.old ontology.new keep_annotated) }
    ensures reach { IfOk result (λ count. ReachIsSame (axioms_of ontology.old.entries) (axioms_of ontology.new.entries)) }
    ensures entailed { IfOk result (λ count. AreEntailedBy (axioms_of ontology.old.entries) (axioms_of ontology.new.entries)) }
    ensures keeps { IfOk result (λ count. KeepBoth (axioms_of ontology.old.entries) (axioms_of ontology.new.entries)) }
    ensures unchanged { OnErr result (ontology.new ≡ ontology.old) }
{
    let graph = graph_of(alloc, ontology)?;
    let flags = redundant(alloc, &graph)?;
    let stays = staying(alloc, ontology, keep_annotated, flags.as_slice())?;
    let before = ontology.len();
    ontology.keep(&stays);
    let after = ontology.len();
    Ok((before - after) as u64)
}
