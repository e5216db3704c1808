//! Reasoning: what is missing is found in the table of derived facts, and then added.
ghost use Rattle.std.specs.Prelude.{◌≡◌, ◌∷◌, [], IfErr, IfOk, List, OnErr, OnOk, ℕ};
ghost use Rattle.indexmap.specs.IndexSet.{insert_all};
ghost use Rattle.el_part.specs.Part.{view_of};
ghost use Rattle.el_taxonomy.specs.Direct.{AreFactsOf};
ghost use Rattle.el_taxonomy.specs.Reason.{Infers, IsRefused, Reasons};
ghost use Rattle.el_taxonomy.specs.Taxonomy.{IsDeclaredClass, IsEmpty};
ghost use Rattle.el_taxonomy.specs.inner.Adding.{IsJudged, said_of, said_of_all, told_as};
ghost use Rattle.owl_ontology.specs.Ontology.{axioms_of};
ghost use Rattle.owl_sem.specs.Laws.{KeepBoth};
ghost use Rattle.relax_axioms.specs.Implied.{same_body};

use crate::direct::direct_edges;
use crate::unsatisfiable::first_unsatisfiable;
use crate::{Edge, ReasonFault};
use el_part::{ElPart, el_part};
use el_saturate::{SatFault, Table, saturate};
use expr_pool::Pool;
use hash_key::HashKey;
use indexmap::IndexSet;
use owl_axioms::{Body, ClassExpr};
use owl_ontology::Ontology;
use rel_io::{Dup, NoMemory};
use relax_axioms::add_all;
use std::alloc::Global;

/// What there is to say of reasoning.
#[derive(Clone, Copy, Debug, PartialEq, Eq)]
pub struct Reasoned {
    /// How many axioms are added.
    pub added: u64,
    /// How many logical axioms are outside the EL part, and were not used.
    pub unused: u64,
}

impl Dup for Reasoned {
    fn copy(&self, _alloc: Global) -> Result<Reasoned, NoMemory> {
        Ok(*self)
    }
}

/// Adds an inclusion for each direct edge of the derived order of classes that no axiom says, without annotations and in the
/// order of the names of the two classes; or is refused where more facts are derived than the limit, and then where nothing
/// can be in a declared class. Where it is refused or no memory is left, nothing has happened.
pub fn reason(alloc: Global, ontology: &mut Ontology, limit: u64) -> Result<Reasoned, ReasonFault>
    ensures reasoned { IfOk result (λ said. Reasons ontology.old ontology.new limit said.added said.unused) }
    ensures keeps { IfOk result (λ said. KeepBoth (axioms_of ontology.old.entries) (axioms_of ontology.new.entries)) }
    ensures refused { IfErr result (IsRefused ontology.old limit) }
    ensures unchanged { OnErr result (ontology.new ≡ ontology.old) }
{
    let mut pool = Pool::new(alloc, ontology.hash_key())?;
    let part = el_part(alloc, ontology, &mut pool)?;
    match saturate(alloc, &part, &pool, limit) {
        Ok(table) => match judged(alloc, ontology, &part, &pool, &table) {
            Ok(said) => Ok(said),
            Err(refused) => Err(refused),
        },
        Err(fault) => Err(told(fault)),
    }
}

/// Why reasoning is refused, where there is no table.
fn told(fault: SatFault) -> ReasonFault
    ensures { result ≡ told_as fault }
{
    match fault {
        SatFault::TooManyFacts { limit } => ReasonFault::TooManyFacts { limit },
        SatFault::NoMemory => ReasonFault::NoMemory,
    }
}

/// Adds the inclusions of a table, unless nothing can be in a declared class.
fn judged(
    alloc: Global,
    ontology: &mut Ontology,
    part: &ElPart,
    pool: &Pool,
    table: &Table,
) -> Result<Reasoned, ReasonFault>
    requires { (limit : ℕ) × AreFactsOf (axioms_of ontology.old.entries) pool.now part.now limit table.now }
    ensures infers { IfOk result (λ said. Infers (view_of pool.now part.now) ontology.old ontology.new said.added) }
    ensures satisfiable { IfOk result (λ said. (class : List ℕ) → IsDeclaredClass (axioms_of ontology.old.entries) class → ¬ (IsEmpty (view_of pool.now part.now) class)) }
    ensures unused { IfOk result (λ said. said.unused ≡ part.now.unused) }
    ensures refused { IfErr result (IsJudged ontology.old.entries (view_of pool.now part.now)) }
    ensures unchanged { OnErr result (ontology.new ≡ ontology.old) }
{
    match first_unsatisfiable(ontology, part, pool, table) {
        Some(at) => Err(ReasonFault::Unsatisfiable { at }),
        None => Ok(with_edges(alloc, ontology, part, pool, table)?),
    }
}

/// Adds the inclusions of a table.
fn with_edges(
    alloc: Global,
    ontology: &mut Ontology,
    part: &ElPart,
    pool: &Pool,
    table: &Table,
) -> Result<Reasoned, NoMemory>
    requires { (limit : ℕ) × AreFactsOf (axioms_of ontology.old.entries) pool.now part.now limit table.now }
    ensures infers { IfOk result (λ said. Infers (view_of pool.now part.now) ontology.old ontology.new said.added) }
    ensures unused { IfOk result (λ said. said.unused ≡ part.now.unused) }
    ensures unchanged { OnErr result (ontology.new ≡ ontology.old) }
{
    let edges = direct_edges(alloc, ontology, part, pool, table)?;
    let bodies = inclusions(alloc, ontology.hash_key(), edges.as_slice())?;
    drop(edges);
    let _proper = ontology.len();
    add_all(alloc, ontology, &bodies)?;
    Ok(Reasoned {
        added: bodies.len() as u64,
        unused: part.unused(),
    })
}

/// The inclusions that edges stand for, in their order.
fn inclusions(
    alloc: Global,
    hash_key: HashKey,
    edges: &[Edge],
) -> Result<IndexSet<Body, HashKey>, NoMemory>
    ensures { IfOk result (λ bodies. bodies.keys ≡ said_of_all edges.now) }
{
    let mut bodies = IndexSet::with_hasher(alloc, hash_key);
    for one in edges {
        push_inclusion(alloc, &mut bodies, one)?;
    }
    Ok(bodies)
}

/// Adds the inclusion that an edge stands for.
fn push_inclusion(
    alloc: Global,
    bodies: &mut IndexSet<Body, HashKey>,
    one: &Edge,
) -> Result<(), NoMemory>
    ensures { OnOk result (bodies.new.keys ≡ insert_all same_body bodies.old.keys (said_of one.now ∷ [])) }
{
    let sub = one.sub.copy(alloc)?;
    let sup = one.sup.copy(alloc)?;
    bodies.insert(Body::Sub(ClassExpr::Class(sub), ClassExpr::Class(sup)))?;
    Ok(())
}
