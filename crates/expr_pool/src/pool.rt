//! `Pool`: each tree once, with one look-up a node.
ghost use Rattle.std.specs.Prelude.{◌≡◌, ◌<◌, ◌≤◌, ◌↔◌, [], Some, IsTrue, IfOk, OnErr, length, slice_get, take};
ghost use Rattle.expr_pool.specs.Interned.{AddsInside, HasNode, IsLastOrKnown};
ghost use Rattle.expr_pool.specs.Pool.{AreDifferent, Grew, IsBefore, tree_at, tree_of};

use crate::intern::node_of_tree;
use crate::{Cell, Node};
use hash_key::HashKey;
use indexmap::IndexSet;
use owl_axioms::ClassExpr;
use rel_io::NoMemory;
use std::alloc::Global;
use std::marker::Model;

/// A pool of trees: seen as the list of the trees of its nodes, in the order in which they came.
#[derive(Drop)]
pub struct Pool {
    alloc: Global,
    pub(crate) cells: IndexSet<Cell, HashKey>,
}

impl Model for Pool {
    ghost use Rattle.std.specs.Prelude.{List};
    ghost use Rattle.std.specs.Coded.{coded_list};
    ghost use Rattle.owl_axioms.specs.declared.expr.ClassExpr.{ClassExpr};
    ghost use Rattle.owl_axioms.specs.contracts.expr.ClassExpr as row;
    ghost use Rattle.expr_pool.specs.Pool.{IsPool, trees_of};

    ghost Value = { List ClassExpr };

    ghost coded = { coded_list row.the_row.coded };

    ghost view = { λ p. trees_of p.cells.keys };

    ghost invariant = { λ p. IsPool p.cells.keys };
}

impl Pool {
    /// A pool without nodes.
    pub fn new(alloc: Global, hash_key: HashKey) -> Result<Pool, NoMemory>
        ensures { IfOk result (λ p. p ≡ []) }
    {
        Ok(Pool {
            alloc,
            cells: IndexSet::with_hasher(alloc, hash_key),
        })
    }

    /// The node of a tree: the one that is there, and then the pool is as it was; or a new one behind all others, with
    /// new nodes for those of its parts that had none before it, and for nothing else. It takes time in proportion to
    /// the tree. Where no memory is left, nothing has happened.
    pub fn intern(&mut self, tree: &ClassExpr) -> Result<Node, NoMemory>
        ensures kept { Grew self.old self.new }
        ensures known { HasNode self.old tree.now → self.new ≡ self.old }
        ensures last { IfOk result (λ n. IsLastOrKnown self.old self.new n.place) }
        ensures only { AddsInside self.old tree.now self.new }
        ensures node { IfOk result (λ n. slice_get self.new n.place ≡ Some tree.now) }
        ensures unchanged { OnErr result (self.new ≡ self.old) }
    {
        let len = self.len();
        match self.put(tree) {
            Ok(node) => Ok(node),
            Err(fault) => {
                self.cut(len);
                Err(fault)
            }
        }
    }

    /// The node of a tree. Where no memory is left, some of its parts may have nodes.
    fn put(&mut self, tree: &ClassExpr) -> Result<Node, NoMemory>
        ensures kept { Grew self.old self.new }
        ensures known { HasNode self.old tree.now → self.new ≡ self.old }
        ensures last { IfOk result (λ n. IsLastOrKnown self.old self.new n.place) }
        ensures only { AddsInside self.old tree.now self.new }
        ensures node { IfOk result (λ n. slice_get self.new n.place ≡ Some tree.now) }
    {
        node_of_tree(self.alloc, &mut self.cells, tree)
    }

    /// The cell of a node: the layer of its tree, whose parts are earlier nodes.
    pub fn node(&self, node: Node) -> &Cell
        requires { node.place < length self.now }
        ensures cell { slice_get self.now node.place ≡ Some (tree_of self.now result.now) }
        ensures before { IsBefore node.place result.now }
    {
        self.cells.get_index(node.place as usize).unwrap()
    }

    /// Whether two nodes are one: exactly where their trees are equal.
    pub fn same(&self, a: Node, b: Node) -> bool
        requires a { a.place < length self.now }
        requires b { b.place < length self.now }
        ensures { IsTrue result ↔ (tree_at self.now a ≡ tree_at self.now b) }
    {
        let _cells = &self.cells;
        a.place == b.place
    }

    /// The number of nodes. Each has a tree of its own.
    pub fn len(&self) -> u64
        ensures len { result ≡ length self.now }
        ensures different { AreDifferent self.now }
    {
        self.cells.len() as u64
    }

    /// The node of a place.
    pub fn at(&self, place: u64) -> Node
        requires { place < length self.now }
        ensures { result.place ≡ place }
    {
        Node { place }
    }

    /// The key with which its table hashes.
    pub fn hash_key(&self) -> HashKey {
        *self.cells.hasher()
    }

    /// Takes all nodes out.
    pub fn clear(&mut self)
        ensures { self.new ≡ [] }
    {
        self.cells.clear();
    }

    /// Keeps the first nodes, as after a call that failed.
    pub fn cut(&mut self, len: u64)
        requires { len ≤ length self.old }
        ensures { self.new ≡ take len self.old }
    {
        self.cells.truncate(len as usize);
    }
}
