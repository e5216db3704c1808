//! The nodes from which all that occurs is reached: those of Thing and Nothing, of the declared classes, and those in the
//! axioms of the part.
ghost use Rattle.std.specs.Prelude.{◌≡◌, ◌++◌, [], ◌∷◌, Some, IfOk, OnOk, flat_map, map, slice_get};
ghost use Rattle.owl_axioms.specs.Classes as classes;
ghost use Rattle.owl_axioms.specs.declared.expr.ClassExpr.TheVariants as expr;
ghost use Rattle.owl_ontology.specs.Ontology.{axioms_of};
ghost use Rattle.expr_pool.specs.Pool.{Grew, stand};
ghost use Rattle.el_part.specs.Part.{nodes_in};
ghost use Rattle.el_part.specs.inner.Made.{declared_as, declared_in, items_of, named_trees};

use crate::ElAxiom;
use expr_pool::{Node, Pool};
use owl_axioms::{Body, ClassExpr, Kind, Name, class_named};
use owl_ontology::Ontology;
use rel_io::{Dup, Iri, NoMemory};
use std::alloc::Global;

/// The node of a class with this IRI.
fn class_node_of(alloc: Global, pool: &mut Pool, iri: &Iri) -> Result<Node, NoMemory>
    ensures kept { Grew pool.old pool.new }
    ensures node { IfOk result (λ n. slice_get pool.new n.place ≡ Some (classes.class_named iri.now)) }
{
    let class = class_named(iri.copy(alloc)?);
    let node = pool.intern(&class)?;
    drop(class);
    Ok(node)
}

/// The node of an entity, where it is a class.
#[tactic(auto, unfolding(crate::specs::inner::Made::declared_as))]
fn named_node(alloc: Global, pool: &mut Pool, name: &Name) -> Result<Option<Node>, NoMemory>
    ensures kept { Grew pool.old pool.new }
    ensures node { IfOk result (λ n. stand pool.new (items_of n) ≡ map Some (declared_as name.now.kind name.now.iri)) }
{
    match name.kind {
        Kind::Class => {
            let node = class_node_of(alloc, pool, &name.iri)?;
            Ok(Some(node))
        }
        Kind::Role => Ok(None),
        Kind::Individual => Ok(None),
        Kind::AnnotationProperty => Ok(None),
    }
}

/// The node of the class that an axiom declares, where it declares one.
#[tactic(auto, unfolding(crate::specs::inner::Made::declared_in))]
fn declared_node(alloc: Global, pool: &mut Pool, body: &Body) -> Result<Option<Node>, NoMemory>
    ensures kept { Grew pool.old pool.new }
    ensures node { IfOk result (λ n. stand pool.new (items_of n) ≡ map Some (declared_in body.now)) }
{
    match body {
        Body::Declaration(name) => named_node(alloc, pool, name),
        _ => Ok(None),
    }
}

/// One node more, if there is one.
fn push_some(nodes: &mut Vec<Node>, node: Option<Node>) -> Result<(), NoMemory>
    ensures { OnOk result (nodes.new.items ≡ nodes.old.items ++ items_of node) }
{
    match node {
        None => Ok(()),
        Some(node) => {
            nodes.push(node)?;
            Ok(())
        }
    }
}

/// The nodes of Thing and Nothing.
fn first_roots(alloc: Global, pool: &mut Pool) -> Result<Vec<Node>, NoMemory>
    ensures kept { Grew pool.old pool.new }
    ensures roots { IfOk result (λ roots. stand pool.new roots.items ≡ map Some (expr.Thing ∷ expr.Nothing ∷ [])) }
{
    let mut roots = Vec::new(alloc);
    let thing = pool.intern(&ClassExpr::Thing)?;
    roots.push(thing)?;
    let nothing = pool.intern(&ClassExpr::Nothing)?;
    roots.push(nothing)?;
    Ok(roots)
}

/// The nodes of Thing, Nothing and the declared classes.
pub(crate) fn named_roots(
    alloc: Global,
    ontology: &Ontology,
    pool: &mut Pool,
) -> Result<Vec<Node>, NoMemory>
    ensures kept { Grew pool.old pool.new }
    ensures roots { IfOk result (λ roots. stand pool.new roots.items ≡ map Some (named_trees (axioms_of ontology.now.entries))) }
{
    let mut roots = first_roots(alloc, pool)?;
    for at in 0..ontology.len() {
        let node = declared_node(alloc, pool, &ontology.get(at).body)?;
        push_some(&mut roots, node)?;
    }
    Ok(roots)
}

/// The nodes in an axiom, behind others.
#[tactic(auto, unfolding(crate::specs::Part::nodes_in))]
fn push_nodes_in(nodes: &mut Vec<Node>, from: &ElAxiom) -> Result<(), NoMemory>
    ensures { OnOk result (nodes.new.items ≡ nodes.old.items ++ nodes_in from.now) }
{
    match from {
        ElAxiom::Sub(c, d) => {
            nodes.push(*c)?;
            nodes.push(*d)?;
            Ok(())
        }
        ElAxiom::Disjoint(c, d) => {
            nodes.push(*c)?;
            nodes.push(*d)?;
            Ok(())
        }
        ElAxiom::Domain(_, c) => {
            nodes.push(*c)?;
            Ok(())
        }
        ElAxiom::SubRole(_, _) => Ok(()),
        ElAxiom::Chain(_, _, _) => Ok(()),
    }
}

/// The nodes in axioms, behind others.
pub(crate) fn push_nodes(nodes: &mut Vec<Node>, axioms: &[ElAxiom]) -> Result<(), NoMemory>
    ensures { OnOk result (nodes.new.items ≡ nodes.old.items ++ flat_map nodes_in axioms.now) }
{
    for from in axioms {
        push_nodes_in(nodes, from)?;
    }
    Ok(())
}
