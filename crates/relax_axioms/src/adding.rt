//! Relaxing: what is missing is collected, and then added; where memory runs out, what was added is taken out again.
ghost use Rattle.std.specs.Prelude.{◌≡◌, ◌++◌, Contains, IfOk, OnErr, OnOk, length, map, take};
ghost use Rattle.owl_axioms.specs.Proper.{IsProper};
ghost use Rattle.owl_ontology.specs.Ontology.{IsHeld, axioms_of};
ghost use Rattle.owl_sem.specs.Laws.{KeepBoth};
ghost use Rattle.relax_axioms.specs.Relax.{Relaxes, relax_of, step_entries, step_origin};
ghost use Rattle.relax_axioms.specs.Relaxed.{plain};

use crate::unsaid::missing;
use hash_key::HashKey;
use indexmap::IndexSet;
use owl_axioms::{Axiom, Body};
use owl_ontology::{Ontology, Origin};
use rel_io::{Dup, Items, NoMemory};
use std::alloc::Global;

/// Adds each inclusion that a definition implies and no axiom says, without annotations, and says how many these are. They
/// come in the order of the definitions. It takes time in proportion to the axioms. Where no memory is left, nothing has
/// happened.
pub fn relax(alloc: Global, ontology: &mut Ontology) -> Result<u64, NoMemory>
    ensures exact { IfOk result (λ count. relax_of ontology.old ≡ (ontology.new, count)) }
    ensures relaxed { IfOk result (Relaxes ontology.old ontology.new) }
    ensures keeps { IfOk result (λ count. KeepBoth (axioms_of ontology.old.entries) (axioms_of ontology.new.entries)) }
    ensures unchanged { OnErr result (ontology.new ≡ ontology.old) }
{
    let missing = missing(alloc, ontology)?;
    add_all(alloc, ontology, &missing)?;
    Ok(missing.len() as u64)
}

/// Adds an axiom for each of these, none of which is there, as a step adds them: without annotations, behind all others. Where
/// no memory is left, nothing has happened.
pub fn add_all(
    alloc: Global,
    ontology: &mut Ontology,
    bodies: &IndexSet<Body, HashKey>,
) -> Result<(), NoMemory>
    requires proper { (b : Body) → Contains bodies.now.keys b → IsProper (plain b) }
    requires absent { (b : Body) → Contains bodies.now.keys b → ¬ (IsHeld (plain b) ontology.old.entries) }
    ensures added { OnOk result (ontology.new ≡ record ontology.old { entries = ontology.old.entries ++ step_entries (map plain bodies.now.keys) }) }
    ensures unchanged { OnErr result (ontology.new ≡ ontology.old) }
{
    let len = ontology.len();
    match add_each(alloc, ontology, bodies) {
        Ok(()) => Ok(()),
        Err(fault) => {
            ontology.cut(len);
            Err(fault)
        }
    }
}

/// Adds them one after the other. Where no memory is left, some may stand behind what was there.
fn add_each(
    alloc: Global,
    ontology: &mut Ontology,
    bodies: &IndexSet<Body, HashKey>,
) -> Result<(), NoMemory>
    requires proper { (b : Body) → Contains bodies.now.keys b → IsProper (plain b) }
    requires absent { (b : Body) → Contains bodies.now.keys b → ¬ (IsHeld (plain b) ontology.old.entries) }
    ensures added { OnOk result (ontology.new ≡ record ontology.old { entries = ontology.old.entries ++ step_entries (map plain bodies.now.keys) }) }
    ensures kept { ontology.old ≡ record ontology.new { entries = take (length ontology.old.entries) ontology.new.entries } }
{
    let count = bodies.len();
    for at in 0..count {
        let body = bodies.get_index(at).unwrap().copy(alloc)?;
        ontology.add(plain_axiom(alloc, body), step_origin())?;
    }
    Ok(())
}

/// An axiom without annotations.
fn plain_axiom(alloc: Global, body: Body) -> Axiom
    ensures { result ≡ plain body }
{
    Axiom {
        body,
        sides: Items::from_vec(Vec::new(alloc)),
    }
}

/// Where an axiom comes from that a step added.
fn step_origin() -> Origin
    ensures { result ≡ step_origin }
{
    Origin { file: 0, line: 0 }
}
