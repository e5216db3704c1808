//! The axioms over nodes.
ghost use Rattle.std.specs.Prelude.{◌≡◌, IfOk, OnErr};
ghost use Rattle.expr_pool.specs.Pool.{Grew};
ghost use Rattle.locality_core.specs.Plain.{IsPlainOf};

use expr_pool::{Node, Pool};
use owl_axioms::{Axiom, Body};
use rel_io::{Dup, Iri, NoMemory};
use std::alloc::Global;

/// The nodes of the class expressions of an axiom.
#[derive(Drop)]
pub enum Plain {
    /// A subclass axiom.
    Sub(Node, Node),
    /// Equivalent classes.
    Equiv(Node, Node),
    /// Disjoint classes.
    Disjoint(Node, Node),
    /// The domain of a property.
    Domain(Iri, Node),
    /// The range of a property.
    Range(Iri, Node),
    /// The class of an individual.
    ClassAssertion(Node, Iri),
    /// An axiom without class expressions.
    Other,
}

/// The nodes of an axiom's class expressions, which have nodes in the pool then. Each node that was in the pool keeps its
/// tree. Where no memory is left, nothing has happened.
pub fn pool_axiom(alloc: Global, pool: &mut Pool, axiom: &Axiom) -> Result<Plain, NoMemory>
    ensures kept { Grew pool.old pool.new }
    ensures nodes { IfOk result (IsPlainOf pool.new «axiom».now.body) }
    ensures unchanged { OnErr result (pool.new ≡ pool.old) }
{
    let len = pool.len();
    match pool_body(alloc, pool, &axiom.body) {
        Ok(plain) => Ok(plain),
        Err(fault) => {
            pool.cut(len);
            Err(fault)
        }
    }
}

/// The nodes of the class expressions in what an axiom says. Where no memory is left, some of them may be in the pool.
fn pool_body(alloc: Global, pool: &mut Pool, body: &Body) -> Result<Plain, NoMemory>
    ensures kept { Grew pool.old pool.new }
    ensures nodes { IfOk result (IsPlainOf pool.new body.now) }
{
    match body {
        Body::Sub(c, d) => {
            let c = pool.intern(c)?;
            let d = pool.intern(d)?;
            Ok(Plain::Sub(c, d))
        }
        Body::Equiv(c, d) => {
            let c = pool.intern(c)?;
            let d = pool.intern(d)?;
            Ok(Plain::Equiv(c, d))
        }
        Body::Disjoint(c, d) => {
            let c = pool.intern(c)?;
            let d = pool.intern(d)?;
            Ok(Plain::Disjoint(c, d))
        }
        Body::Domain(role, c) => {
            let role = role.copy(alloc)?;
            let c = pool.intern(c)?;
            Ok(Plain::Domain(role, c))
        }
        Body::Range(role, c) => {
            let role = role.copy(alloc)?;
            let c = pool.intern(c)?;
            Ok(Plain::Range(role, c))
        }
        Body::ClassAssertion(c, name) => {
            let name = name.copy(alloc)?;
            let c = pool.intern(c)?;
            Ok(Plain::ClassAssertion(c, name))
        }
        Body::SubRole(_, _) => Ok(Plain::Other),
        Body::Chain(_, _, _) => Ok(Plain::Other),
        Body::EquivRoles(_, _) => Ok(Plain::Other),
        Body::DisjointRoles(_, _) => Ok(Plain::Other),
        Body::Inverse(_, _) => Ok(Plain::Other),
        Body::Transitive(_) => Ok(Plain::Other),
        Body::Reflexive(_) => Ok(Plain::Other),
        Body::Symmetric(_) => Ok(Plain::Other),
        Body::Asymmetric(_) => Ok(Plain::Other),
        Body::Functional(_) => Ok(Plain::Other),
        Body::InverseFunctional(_) => Ok(Plain::Other),
        Body::RoleAssertion(_, _, _) => Ok(Plain::Other),
        Body::Declaration(_) => Ok(Plain::Other),
        Body::Note(_, _, _) => Ok(Plain::Other),
        Body::OntologyNote(_, _) => Ok(Plain::Other),
    }
}
