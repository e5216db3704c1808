//! What is missing: what definitions imply, without what is said already.
ghost use Rattle.std.specs.Prelude.{◌≡◌, not, ◌&&◌, ◌||◌, Contains, IfOk, OnOk, filter};
ghost use Rattle.indexmap.specs.IndexSet.{contains};
ghost use Rattle.owl_axioms.specs.Proper.{IsProper};
ghost use Rattle.owl_ontology.specs.Ontology.{IsHeld, axioms_of};
ghost use Rattle.relax_axioms.specs.Implied.{is_said, missing_of, same_body};
ghost use Rattle.relax_axioms.specs.Relaxed.{plain};

use crate::implied::wanted;
use hash_key::HashKey;
use indexmap::IndexSet;
use owl_axioms::{Axiom, Body};
use owl_ontology::Ontology;
use rel_io::{Dup, NoMemory};
use std::alloc::Global;

/// The inclusions that definitions imply and that no axiom says.
pub fn missing(alloc: Global, ontology: &Ontology) -> Result<IndexSet<Body, HashKey>, NoMemory>
    ensures exact { IfOk result (λ bodies. bodies.keys ≡ missing_of (axioms_of ontology.now.entries)) }
    ensures proper { IfOk result (λ bodies. (b : Body) → Contains bodies.keys b → IsProper (plain b)) }
    ensures absent { IfOk result (λ bodies. (b : Body) → Contains bodies.keys b → ¬ (IsHeld (plain b) ontology.now.entries)) }
{
    let mut bodies = wanted(alloc, ontology)?;
    let said = said_of(alloc, ontology, &bodies)?;
    drop_said(&mut bodies, &said);
    let _proper = ontology.len();
    Ok(bodies)
}

/// Drops those that are said, and leaves the others in their order.
fn drop_said(bodies: &mut IndexSet<Body, HashKey>, said: &IndexSet<Body, HashKey>)
    ensures { bodies.new.keys ≡ filter (λ b. not (contains same_body said.now b)) bodies.old.keys }
{
    bodies.retain(
        |body: &Body| -> bool
            ensures { result ≡ not (contains same_body said.entry.now body.now) }
        { !said.contains(body) },
    );
}

/// Which of these the axioms say.
fn said_of(
    alloc: Global,
    ontology: &Ontology,
    bodies: &IndexSet<Body, HashKey>,
) -> Result<IndexSet<Body, HashKey>, NoMemory>
    ensures { IfOk result (λ said. (b : Body) → contains same_body said b ≡ (contains same_body bodies.now b && is_said (axioms_of ontology.now.entries) b)) }
{
    let mut said = IndexSet::with_hasher(alloc, ontology.hash_key());
    for at in 0..ontology.len() {
        push_said(alloc, &mut said, bodies, ontology.get(at))?;
    }
    Ok(said)
}

/// Adds what an axiom says, where it is one of these.
fn push_said(
    alloc: Global,
    said: &mut IndexSet<Body, HashKey>,
    bodies: &IndexSet<Body, HashKey>,
    one: &Axiom,
) -> Result<(), NoMemory>
    ensures { OnOk result ((b : Body) → contains same_body said.new b ≡ (contains same_body said.old b || (contains same_body bodies.now b && same_body one.now.body b))) }
{
    if has_body(bodies, one) {
        said.insert(one.body.copy(alloc)?)?;
    }
    Ok(())
}

/// Whether what an axiom says is one of these, with whatever annotations it says it.
fn has_body(bodies: &IndexSet<Body, HashKey>, one: &Axiom) -> bool
    ensures { result ≡ contains same_body bodies.now one.now.body }
{
    bodies.contains(&one.body)
}
