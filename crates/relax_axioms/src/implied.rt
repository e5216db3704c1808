//! What definitions imply.
ghost use Rattle.std.specs.Prelude.{◌≡◌, ◌∷◌, [], IfOk, MatchOption, None, OnOk, Some};
ghost use Rattle.indexmap.specs.IndexSet.{insert_all};
ghost use Rattle.owl_ontology.specs.Ontology.{axioms_of};
ghost use Rattle.relax_axioms.specs.Implied as spec;
ghost use Rattle.relax_axioms.specs.Implied.{all_implied, defined_as, definition_in, implied_by, same_body, wanted_by};

use hash_key::HashKey;
use indexmap::IndexSet;
use owl_axioms::{Body, ClassExpr};
use owl_ontology::Ontology;
use rel_io::{Dup, Iri, NoMemory};
use std::alloc::Global;

/// The inclusions that definitions imply, in the order of the axioms.
pub fn wanted(alloc: Global, ontology: &Ontology) -> Result<IndexSet<Body, HashKey>, NoMemory>
    ensures { IfOk result (λ bodies. bodies.keys ≡ insert_all same_body [] (all_implied (axioms_of ontology.now.entries))) }
{
    let mut bodies = IndexSet::with_hasher(alloc, ontology.hash_key());
    for at in 0..ontology.len() {
        push_wanted(alloc, &mut bodies, &ontology.get(at).body)?;
    }
    Ok(bodies)
}

/// Adds what an axiom implies by what it says.
fn push_wanted(
    alloc: Global,
    bodies: &mut IndexSet<Body, HashKey>,
    body: &Body,
) -> Result<(), NoMemory>
    ensures { OnOk result (bodies.new.keys ≡ insert_all same_body bodies.old.keys (wanted_by body.now)) }
{
    match definition_in(body) {
        None => Ok(()),
        Some((class, operands)) => push_operands(alloc, bodies, class, operands),
    }
}

/// The class and the operands of a definition.
#[tactic(auto, unfolding(crate::specs::Implied::definition_in))]
fn definition_in(body: &Body) -> Option<(&Iri, &[ClassExpr])>
    ensures { MatchOption result (definition_in body.now ≡ None) (λ found. definition_in body.now ≡ Some (found.0.now, found.1.now)) }
{
    match body {
        Body::Equiv(one, other) => defined_as(one, other),
        _ => None,
    }
}

/// The class and the operands, where one is a class and the other an intersection.
#[tactic(auto, unfolding(crate::specs::Implied::defined_as), using(crate::proofs::Views::views))]
fn defined_as<'a>(one: &'a ClassExpr, other: &'a ClassExpr) -> Option<(&'a Iri, &'a [ClassExpr])>
    ensures { MatchOption result (defined_as one.now other.now ≡ None) (λ found. defined_as one.now other.now ≡ Some (found.0.now, found.1.now)) }
{
    match (one, other) {
        (ClassExpr::Class(class), ClassExpr::And(operands)) => Some((class, operands.as_slice())),
        (ClassExpr::And(operands), ClassExpr::Class(class)) => Some((class, operands.as_slice())),
        _ => None,
    }
}

/// Adds what the operands of a class imply.
fn push_operands(
    alloc: Global,
    bodies: &mut IndexSet<Body, HashKey>,
    class: &Iri,
    operands: &[ClassExpr],
) -> Result<(), NoMemory>
    ensures { OnOk result (bodies.new.keys ≡ insert_all same_body bodies.old.keys (implied_by class.now operands.now)) }
{
    for operand in operands {
        push_operand(alloc, bodies, class, operand)?;
    }
    Ok(())
}

/// Adds what one operand of a class implies.
fn push_operand(
    alloc: Global,
    bodies: &mut IndexSet<Body, HashKey>,
    class: &Iri,
    operand: &ClassExpr,
) -> Result<(), NoMemory>
    ensures { OnOk result (bodies.new.keys ≡ insert_all same_body bodies.old.keys (implied_by class.now (operand.now ∷ []))) }
{
    if !is_relaxed(operand) {
        return Ok(());
    }
    let class = class.copy(alloc)?;
    let operand = operand.copy(alloc)?;
    bodies.insert(Body::Sub(ClassExpr::Class(class), operand))?;
    Ok(())
}

/// Whether it is a class, or what has some filler in a class.
#[tactic(auto, unfolding(crate::specs::Implied::is_relaxed), using(crate::proofs::Views::views))]
fn is_relaxed(operand: &ClassExpr) -> bool
    ensures { result ≡ spec.is_relaxed operand.now }
{
    match operand {
        ClassExpr::Class(_) => true,
        ClassExpr::Some(_, part) => is_class(part.get()),
        _ => false,
    }
}

/// Whether it is a class with a name.
#[tactic(auto, unfolding(crate::specs::Implied::is_class))]
fn is_class(part: &ClassExpr) -> bool
    ensures { result ≡ spec.is_class part.now }
{
    matches!(part, ClassExpr::Class(_))
}
