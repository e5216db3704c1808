//! The axioms of the EL part, over nodes.
ghost use Rattle.std.specs.Prelude.{◌≡◌, ◌++◌, [], ◌∷◌, IfOk, OnOk};
ghost use Rattle.owl_axioms.specs.declared.body.Body.TheVariants as body;
ghost use Rattle.owl_ontology.specs.Ontology.{axioms_of};
ghost use Rattle.expr_pool.specs.Pool.{Grew};
ghost use Rattle.el_rules.specs.ElPart.{el_axioms, el_bodies};
ghost use Rattle.el_part.specs.declared.el_axiom.ElAxiom.TheVariants as el;
ghost use Rattle.el_part.specs.inner.Made.{IsPair, Stand};

use crate::ElAxiom;
use crate::fragment::is_el;
use expr_pool::{Node, Pool};
use owl_axioms::{Body, ClassExpr};
use owl_ontology::Ontology;
use rel_io::{Dup, Iri, NoMemory};
use std::alloc::Global;

/// The nodes of two expressions, where both are EL expressions.
fn el_pair(pool: &mut Pool, c: &ClassExpr, d: &ClassExpr) -> Result<Option<(Node, Node)>, NoMemory>
    ensures kept { Grew pool.old pool.new }
    ensures pair { IfOk result (λ p. IsPair pool.new c.now d.now p) }
{
    if !is_el(c) || !is_el(d) {
        return Ok(None);
    }
    let first = pool.intern(c)?;
    let second = pool.intern(d)?;
    Ok(Some((first, second)))
}

/// No axiom.
fn none(alloc: Global) -> Result<Vec<ElAxiom>, NoMemory>
    ensures { IfOk result (λ made. made.items ≡ []) }
{
    Ok(Vec::new(alloc))
}

/// One axiom.
fn one(alloc: Global, first: ElAxiom) -> Result<Vec<ElAxiom>, NoMemory>
    ensures { IfOk result (λ made. made.items ≡ first ∷ []) }
{
    let mut made = Vec::new(alloc);
    made.push(first)?;
    Ok(made)
}

/// Two axioms.
fn two(alloc: Global, first: ElAxiom, second: ElAxiom) -> Result<Vec<ElAxiom>, NoMemory>
    ensures { IfOk result (λ made. made.items ≡ first ∷ second ∷ []) }
{
    let mut made = Vec::new(alloc);
    made.push(first)?;
    made.push(second)?;
    Ok(made)
}

/// What the part has of an inclusion.
fn of_sub(
    alloc: Global,
    pool: &mut Pool,
    c: &ClassExpr,
    d: &ClassExpr,
) -> Result<Vec<ElAxiom>, NoMemory>
    ensures kept { Grew pool.old pool.new }
    ensures made { IfOk result (λ made. Stand pool.new made.items (el_bodies (body.Sub c.now d.now))) }
{
    match el_pair(pool, c, d)? {
        None => {
            let made = none(alloc)?;
            Ok(made)
        }
        Some(pair) => {
            let made = one(alloc, ElAxiom::Sub(pair.0, pair.1))?;
            Ok(made)
        }
    }
}

/// What the part has of an equivalence.
fn of_equiv(
    alloc: Global,
    pool: &mut Pool,
    c: &ClassExpr,
    d: &ClassExpr,
) -> Result<Vec<ElAxiom>, NoMemory>
    ensures kept { Grew pool.old pool.new }
    ensures made { IfOk result (λ made. Stand pool.new made.items (el_bodies (body.Equiv c.now d.now))) }
{
    match el_pair(pool, c, d)? {
        None => {
            let made = none(alloc)?;
            Ok(made)
        }
        Some(pair) => {
            let there = ElAxiom::Sub(pair.0, pair.1);
            let back = ElAxiom::Sub(pair.1, pair.0);
            let made = two(alloc, there, back)?;
            Ok(made)
        }
    }
}

/// What the part has of a disjointness.
fn of_disjoint(
    alloc: Global,
    pool: &mut Pool,
    c: &ClassExpr,
    d: &ClassExpr,
) -> Result<Vec<ElAxiom>, NoMemory>
    ensures kept { Grew pool.old pool.new }
    ensures made { IfOk result (λ made. Stand pool.new made.items (el_bodies (body.Disjoint c.now d.now))) }
{
    match el_pair(pool, c, d)? {
        None => {
            let made = none(alloc)?;
            Ok(made)
        }
        Some(pair) => {
            let made = one(alloc, ElAxiom::Disjoint(pair.0, pair.1))?;
            Ok(made)
        }
    }
}

/// What the part has of a domain.
fn of_domain(
    alloc: Global,
    pool: &mut Pool,
    role: &Iri,
    c: &ClassExpr,
) -> Result<Vec<ElAxiom>, NoMemory>
    ensures kept { Grew pool.old pool.new }
    ensures made { IfOk result (λ made. Stand pool.new made.items (el_bodies (body.Domain role.now c.now))) }
{
    if !is_el(c) {
        let made = none(alloc)?;
        return Ok(made);
    }
    let class = pool.intern(c)?;
    let role = role.copy(alloc)?;
    let made = one(alloc, ElAxiom::Domain(role, class))?;
    Ok(made)
}

/// An inclusion of roles.
fn sub_role(alloc: Global, role: &Iri, other: &Iri) -> Result<ElAxiom, NoMemory>
    ensures { IfOk result (λ made. made ≡ el.SubRole role.now other.now) }
{
    let role = role.copy(alloc)?;
    let other = other.copy(alloc)?;
    Ok(ElAxiom::SubRole(role, other))
}

/// A chain.
fn chain(alloc: Global, role: &Iri, other: &Iri, implied: &Iri) -> Result<ElAxiom, NoMemory>
    ensures { IfOk result (λ made. made ≡ el.Chain role.now other.now implied.now) }
{
    let role = role.copy(alloc)?;
    let other = other.copy(alloc)?;
    let implied = implied.copy(alloc)?;
    Ok(ElAxiom::Chain(role, other, implied))
}

/// What the part has of a chain.
fn of_chain(
    alloc: Global,
    pool: &Pool,
    role: &Iri,
    other: &Iri,
    implied: &Iri,
) -> Result<Vec<ElAxiom>, NoMemory>
    ensures { IfOk result (λ made. Stand pool.now made.items (el_bodies (body.Chain role.now other.now implied.now))) }
{
    let first = chain(alloc, role, other, implied)?;
    let made = one(alloc, first)?;
    Ok(made)
}

/// What the part has of a transitive role.
fn of_transitive(alloc: Global, pool: &Pool, role: &Iri) -> Result<Vec<ElAxiom>, NoMemory>
    ensures { IfOk result (λ made. Stand pool.now made.items (el_bodies (body.Transitive role.now))) }
{
    let first = chain(alloc, role, role, role)?;
    let made = one(alloc, first)?;
    Ok(made)
}

/// What the part has of an equivalence of roles.
fn of_equiv_roles(
    alloc: Global,
    pool: &Pool,
    role: &Iri,
    other: &Iri,
) -> Result<Vec<ElAxiom>, NoMemory>
    ensures { IfOk result (λ made. Stand pool.now made.items (el_bodies (body.EquivRoles role.now other.now))) }
{
    let there = sub_role(alloc, role, other)?;
    let back = sub_role(alloc, other, role)?;
    let made = two(alloc, there, back)?;
    Ok(made)
}

/// What the part has of an inclusion of roles.
fn of_sub_role(
    alloc: Global,
    pool: &Pool,
    role: &Iri,
    other: &Iri,
) -> Result<Vec<ElAxiom>, NoMemory>
    ensures { IfOk result (λ made. Stand pool.now made.items (el_bodies (body.SubRole role.now other.now))) }
{
    let there = sub_role(alloc, role, other)?;
    let made = one(alloc, there)?;
    Ok(made)
}

/// What the EL part has of an axiom of which it has nothing.
fn of_other(alloc: Global, pool: &Pool, body: &Body) -> Result<Vec<ElAxiom>, NoMemory>
    requires { el_bodies body.now ≡ [] }
    ensures { IfOk result (λ made. Stand pool.now made.items (el_bodies body.now)) }
{
    let made = none(alloc)?;
    Ok(made)
}

/// What the EL part has of what an axiom says.
#[tactic(auto, unfolding(el_rules::specs::ElPart::el_bodies))]
fn of_body(alloc: Global, pool: &mut Pool, body: &Body) -> Result<Vec<ElAxiom>, NoMemory>
    ensures kept { Grew pool.old pool.new }
    ensures made { IfOk result (λ made. Stand pool.new made.items (el_bodies body.now)) }
{
    match body {
        Body::Sub(c, d) => of_sub(alloc, pool, c, d),
        Body::Equiv(c, d) => of_equiv(alloc, pool, c, d),
        Body::Disjoint(c, d) => of_disjoint(alloc, pool, c, d),
        Body::Domain(role, c) => of_domain(alloc, pool, role, c),
        Body::SubRole(role, other) => of_sub_role(alloc, pool, role, other),
        Body::EquivRoles(role, other) => of_equiv_roles(alloc, pool, role, other),
        Body::Chain(role, other, implied) => of_chain(alloc, pool, role, other, implied),
        Body::Transitive(role) => of_transitive(alloc, pool, role),
        Body::DisjointRoles(_, _) => of_other(alloc, pool, body),
        Body::Inverse(_, _) => of_other(alloc, pool, body),
        Body::Reflexive(_) => of_other(alloc, pool, body),
        Body::Symmetric(_) => of_other(alloc, pool, body),
        Body::Asymmetric(_) => of_other(alloc, pool, body),
        Body::Functional(_) => of_other(alloc, pool, body),
        Body::InverseFunctional(_) => of_other(alloc, pool, body),
        Body::Range(_, _) => of_other(alloc, pool, body),
        Body::ClassAssertion(_, _) => of_other(alloc, pool, body),
        Body::RoleAssertion(_, _, _) => of_other(alloc, pool, body),
        Body::Declaration(_) => of_other(alloc, pool, body),
        Body::Note(_, _, _) => of_other(alloc, pool, body),
        Body::OntologyNote(_, _) => of_other(alloc, pool, body),
    }
}

/// The axioms of the EL part of an ontology.
pub(crate) fn part_axioms(
    alloc: Global,
    ontology: &Ontology,
    pool: &mut Pool,
) -> Result<Vec<ElAxiom>, NoMemory>
    ensures kept { Grew pool.old pool.new }
    ensures made { IfOk result (λ made. Stand pool.new made.items (el_axioms (axioms_of ontology.now.entries))) }
{
    let mut axioms = Vec::new(alloc);
    for at in 0..ontology.len() {
        let mut more = of_body(alloc, pool, &ontology.get(at).body)?;
        axioms.append(&mut more)?;
    }
    Ok(axioms)
}
