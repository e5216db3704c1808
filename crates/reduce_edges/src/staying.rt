//! Which axioms stay.
ghost use Rattle.std.specs.Prelude.{◌≡◌, IfOk};
ghost use Rattle.owl_ontology.specs.Ontology.{axioms_of};
ghost use Rattle.reduce_edges.specs.Edges.{edge_in};
ghost use Rattle.reduce_edges.specs.inner.Staying.{flags_behind, stays_by, stays_of};

use crate::graph::edge_in;
use owl_axioms::Axiom;
use owl_ontology::Ontology;
use rel_io::NoMemory;
use std::alloc::Global;

/// A flag for each axiom, set where it stays, by the flags of the redundant edges.
pub fn staying(
    alloc: Global,
    ontology: &Ontology,
    keep_annotated: bool,
    redundant: &[bool],
) -> Result<Vec<bool>, NoMemory>
    ensures { IfOk result (λ stays. stays.items ≡ stays_of keep_annotated (axioms_of ontology.now.entries) redundant.now) }
{
    let mut stays = Vec::new(alloc);
    let mut rest = redundant;
    for at in 0..ontology.len() {
        let (flag, behind) = judged(ontology.get(at), keep_annotated, rest);
        stays.push(flag)?;
        rest = behind;
    }
    Ok(stays)
}

/// Whether an axiom stays, and the flags of the edges behind it.
fn judged<'a>(one: &Axiom, keep_annotated: bool, flags: &'a [bool]) -> (bool, &'a [bool])
    ensures stays { result.0 ≡ stays_by keep_annotated (edge_in one.now.body) one.now.sides flags.now }
    ensures behind { result.1.now ≡ flags_behind (edge_in one.now.body) flags.now }
{
    match (edge_in(&one.body), flags.split_first()) {
        (Some(_), Some((flag, behind))) => (
            !*flag || (keep_annotated && !one.sides.as_slice().is_empty()),
            behind,
        ),
        _ => (true, flags),
    }
}
