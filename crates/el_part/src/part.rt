//! `ElPart`: the EL part of an ontology, and how it is taken.
ghost use Rattle.std.specs.Prelude.{◌≡◌, ◌<◌, Some, IfOk, OnErr, length, option_copied, slice_get};
ghost use Rattle.owl_ontology.specs.Ontology.{axioms_of};
ghost use Rattle.expr_pool.specs.Pool.{Grew};
ghost use Rattle.el_rules.specs.ElPart.{unused_of};
ghost use Rattle.el_rules.specs.Rules.{IsElPartOf};
ghost use Rattle.el_part.specs.Part.{FitsPool, HasClasses, class_at, view_of};

use crate::ElAxiom;
use crate::axioms::part_axioms;
use crate::classes::class_map;
use crate::closure::occurring_nodes;
use crate::fragment::unused_count;
use crate::roots::{named_roots, push_nodes};
use expr_pool::{Node, Pool};
use hash_key::HashKey;
use indexmap::IndexMap;
use owl_ontology::Ontology;
use rel_io::{Iri, NoMemory};
use std::alloc::Global;
use std::marker::Model;

/// The EL part of an ontology: seen as its axioms, the nodes of the expressions that occur, each once, the node of each
/// class that occurs, and the number of logical axioms that are outside it.
#[derive(Drop)]
pub struct ElPart {
    axioms: Vec<ElAxiom>,
    occurring: Vec<Node>,
    classes: IndexMap<Iri, Node, HashKey>,
    unused: u64,
}

impl Model for ElPart {
    ghost use Rattle.el_part.specs.Part.{PartState};

    ghost Value = { PartState };

    ghost view = { λ p. record { axioms = p.axioms.items; occurring = p.occurring.items; classes = p.classes.entries; unused = p.unused } };
}

impl ElPart {
    /// How many logical axioms are outside the part.
    pub fn unused(&self) -> u64
        ensures { result ≡ self.now.unused }
    {
        self.unused
    }

    /// How many axioms the part has.
    pub fn axioms(&self) -> usize
        ensures { result ≡ length self.now.axioms }
    {
        self.axioms.len()
    }

    /// The axiom at a place, from 0.
    pub fn axiom(&self, at: usize) -> &ElAxiom
        requires { at < length self.now.axioms }
        ensures { slice_get self.now.axioms at ≡ Some result.now }
    {
        &self.axioms[at]
    }

    /// How many expressions occur.
    pub fn occurring(&self) -> usize
        ensures { result ≡ length self.now.occurring }
    {
        self.occurring.len()
    }

    /// The node of the expression at a place, from 0.
    pub fn occurs(&self, at: usize) -> Node
        requires { at < length self.now.occurring }
        ensures { slice_get self.now.occurring at ≡ Some result }
    {
        self.occurring[at]
    }

    /// The node of the class with this IRI; none exactly where it does not occur, as `el_part` says of `classes`.
    pub fn class_node(&self, iri: &Iri) -> Option<Node>
        ensures { result ≡ class_at self.now iri.now }
    {
        self.classes.get(iri).copied()
    }
}

/// The EL part of an ontology. It takes time in proportion to the ontology and the pool. All nodes that were in the pool
/// keep their trees; further ones may be in it then. Where no memory is left, nothing has happened.
pub fn el_part(alloc: Global, ontology: &Ontology, pool: &mut Pool) -> Result<ElPart, NoMemory>
    ensures kept { Grew pool.old pool.new }
    ensures part { IfOk result (λ part. IsElPartOf (axioms_of ontology.now.entries) (view_of pool.new part)) }
    ensures fits { IfOk result (λ part. FitsPool pool.new part) }
    ensures classes { IfOk result (λ part. HasClasses pool.new part) }
    ensures unused { IfOk result (λ part. part.unused ≡ unused_of (axioms_of ontology.now.entries)) }
    ensures unchanged { OnErr result (pool.new ≡ pool.old) }
{
    let len = pool.len();
    match part_of(alloc, ontology, pool) {
        Ok(part) => Ok(part),
        Err(fault) => {
            pool.cut(len);
            Err(fault)
        }
    }
}

/// The EL part of an ontology, after which the pool may have further nodes in any case.
fn part_of(alloc: Global, ontology: &Ontology, pool: &mut Pool) -> Result<ElPart, NoMemory>
    ensures kept { Grew pool.old pool.new }
    ensures part { IfOk result (λ part. IsElPartOf (axioms_of ontology.now.entries) (view_of pool.new part)) }
    ensures fits { IfOk result (λ part. FitsPool pool.new part) }
    ensures classes { IfOk result (λ part. HasClasses pool.new part) }
    ensures unused { IfOk result (λ part. part.unused ≡ unused_of (axioms_of ontology.now.entries)) }
{
    let mut roots = named_roots(alloc, ontology, pool)?;
    let axioms = part_axioms(alloc, ontology, pool)?;
    push_nodes(&mut roots, axioms.as_slice())?;
    let occurring = occurring_nodes(alloc, pool, roots.as_slice())?;
    let classes = class_map(alloc, pool, occurring.as_slice())?;
    let unused = unused_count(ontology);
    Ok(ElPart {
        axioms,
        occurring,
        classes,
        unused,
    })
}
