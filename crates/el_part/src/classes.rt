//! The node of each class that occurs.
ghost use Rattle.std.specs.Prelude.{◌≡◌, ◌<◌, ℕ, List, Option, Some, IfOk, OnOk, length, slice_get};
ghost use Rattle.indexmap.specs.IndexMap.{get};
ghost use Rattle.expr_pool.specs.Part.{AreBefore};
ghost use Rattle.el_part.specs.inner.ClassMap.{AreClassesOf, same_iri, with_class};

use expr_pool::{Cell, Node, Pool};
use hash_key::HashKey;
use indexmap::IndexMap;
use rel_io::{Dup, Iri, NoMemory};
use std::alloc::Global;

/// One class more, if the cell is one.
#[tactic(auto, unfolding(crate::specs::inner::ClassMap::with_class))]
fn add_class(
    alloc: Global,
    classes: &mut IndexMap<Iri, Node, HashKey>,
    cell: &Cell,
    node: Node,
) -> Result<(), NoMemory>
    ensures { OnOk result ((iri : List ℕ) → get same_iri classes.new iri ≡ with_class cell.now node (get same_iri classes.old) iri) }
{
    match cell {
        Cell::Class(iri) => {
            let iri = iri.copy(alloc)?;
            classes.insert(iri, node)?;
            Ok(())
        }
        Cell::Thing => Ok(()),
        Cell::Nothing => Ok(()),
        Cell::And(_) => Ok(()),
        Cell::Or(_) => Ok(()),
        Cell::Not(_) => Ok(()),
        Cell::Some(_, _) => Ok(()),
        Cell::All(_, _) => Ok(()),
        Cell::Min(_, _, _) => Ok(()),
        Cell::Max(_, _, _) => Ok(()),
        Cell::Exact(_, _, _) => Ok(()),
    }
}

/// The node at a place of a list.
pub(crate) fn nth(nodes: &[Node], at: usize) -> Node
    requires { at < length nodes.now }
    ensures { slice_get nodes.now at ≡ Some result }
{
    nodes[at]
}

/// The classes among these nodes, by their IRIs.
pub(crate) fn class_map(
    alloc: Global,
    pool: &Pool,
    nodes: &[Node],
) -> Result<IndexMap<Iri, Node, HashKey>, NoMemory>
    requires { AreBefore (length pool.now) nodes.now }
    ensures { IfOk result (λ classes. AreClassesOf pool.now nodes.now (get same_iri classes)) }
{
    let _count = pool.len();
    let mut classes = IndexMap::with_hasher(alloc, pool.hash_key());
    for at in 0..nodes.len() {
        let node = nth(nodes, at);
        add_class(alloc, &mut classes, pool.node(node), node)?;
    }
    Ok(classes)
}
