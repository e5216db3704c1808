//! The direct edges of a taxonomy, by names.
ghost use Rattle.std.specs.Prelude.{◌≡◌, ◌++◌, ℕ, IfOk, MatchOption, None, OnOk, Some};
ghost use Rattle.el_part.specs.Part.{FitsPool, view_of};
ghost use Rattle.el_taxonomy.specs.Direct.{AreDirectEdges, AreFactsOf};
ghost use Rattle.el_taxonomy.specs.inner.Named.{class_numbered, edge_between, edge_numbered, edges_numbered};
ghost use Rattle.el_taxonomy.specs.inner.Numbers.{exprs_of};
ghost use Rattle.owl_ontology.specs.Ontology.{axioms_of};

use crate::Edge;
use crate::numbering::{class_flags, class_of, declared_flags, told_rows};
use el_part::ElPart;
use el_saturate::Table;
use expr_pool::Pool;
use owl_ontology::Ontology;
use rel_io::{Dup, Iri, NoMemory};
use std::alloc::Global;

/// The direct edges that no axiom of the ontology says, in the order of their names, each once. The part and the table are
/// those of the ontology, over the pool. It takes time in proportion to the table.
pub fn direct_edges(
    alloc: Global,
    ontology: &Ontology,
    part: &ElPart,
    pool: &Pool,
    table: &Table,
) -> Result<Vec<Edge>, NoMemory>
    requires { (limit : ℕ) × AreFactsOf (axioms_of ontology.now.entries) pool.now part.now limit table.now }
    ensures { IfOk result (λ edges. AreDirectEdges (axioms_of ontology.now.entries) (view_of pool.now part.now) edges.items) }
{
    let _proper = ontology.len();
    let told = told_rows(alloc, ontology, part, table)?;
    let classes = class_flags(alloc, part, pool)?;
    let declared = declared_flags(alloc, ontology, part, table)?;
    let pairs = direct_above::direct_edges(
        alloc,
        table.rows(),
        told.as_slice(),
        classes.as_slice(),
        declared.as_slice(),
    )?;
    let mut edges = named(alloc, part, pool, pairs.as_slice())?;
    edges.sort_unstable();
    Ok(edges)
}

/// The edges between the classes of these numbers.
fn named(
    alloc: Global,
    part: &ElPart,
    pool: &Pool,
    pairs: &[(u32, u32)],
) -> Result<Vec<Edge>, NoMemory>
    requires { FitsPool pool.now part.now }
    ensures { IfOk result (λ edges. edges.items ≡ edges_numbered (exprs_of pool.now part.now) pairs.now) }
{
    let mut edges = Vec::new(alloc);
    for (lower, upper) in pairs {
        push_edge(alloc, part, pool, (*lower, *upper), &mut edges)?;
    }
    Ok(edges)
}

/// Adds the edge between the classes of two numbers.
fn push_edge(
    alloc: Global,
    part: &ElPart,
    pool: &Pool,
    pair: (u32, u32),
    edges: &mut Vec<Edge>,
) -> Result<(), NoMemory>
    requires { FitsPool pool.now part.now }
    ensures { OnOk result (edges.new.items ≡ edges.old.items ++ edge_numbered (exprs_of pool.now part.now) pair) }
{
    match named_class(part, pool, pair.0) {
        None => Ok(()),
        Some(sub) => match named_class(part, pool, pair.1) {
            None => Ok(()),
            Some(sup) => push_between(alloc, sub, sup, edges),
        },
    }
}

/// The class of a number, if its expression is one.
fn named_class<'a>(part: &ElPart, pool: &'a Pool, number: u32) -> Option<&'a Iri>
    requires { FitsPool pool.now part.now }
    ensures { MatchOption result (class_numbered (exprs_of pool.now part.now) number ≡ None) (λ class. class_numbered (exprs_of pool.now part.now) number ≡ Some class.now) }
{
    class_of(part, pool, number)
}

/// Adds the edge between two classes.
fn push_between(alloc: Global, sub: &Iri, sup: &Iri, edges: &mut Vec<Edge>) -> Result<(), NoMemory>
    ensures { OnOk result (edges.new.items ≡ edges.old.items ++ edge_between (Some sub.now) (Some sup.now)) }
{
    let sub = sub.copy(alloc)?;
    let sup = sup.copy(alloc)?;
    edges.push(Edge { sub, sup })?;
    Ok(())
}
