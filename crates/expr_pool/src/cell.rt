//! Nodes, and the cell of a node: one layer of its tree.
ghost use Rattle.std.specs.Prelude.{◌≡◌};
ghost use Rattle.expr_pool.specs.Pool.{nodes_of};

use rel_io::{Iri, Items};
use std::slice::from_ref;

/// A node of a pool.
#[derive(Clone, Copy, PartialEq, Eq, PartialOrd, Ord, Hash)]
pub struct Node {
    pub(crate) place: u64,
}

impl Node {
    /// The place of the node in its pool, from 0.
    pub fn place(self) -> u64
        ensures { result ≡ self.place }
    {
        self.place
    }
}

/// One layer of an expression, whose parts are nodes.
#[derive(PartialEq, Eq, Hash, Drop)]
pub enum Cell {
    /// owl:Thing.
    Thing,
    /// owl:Nothing.
    Nothing,
    /// A named class.
    Class(Iri),
    /// The intersection of its operands.
    And(Items<Node>),
    /// The union of its operands.
    Or(Items<Node>),
    /// The complement.
    Not(Node),
    /// What has some filler by the property.
    Some(Iri, Node),
    /// What has only such fillers.
    All(Iri, Node),
    /// What has at least so many fillers.
    Min(u32, Iri, Node),
    /// What has at most so many fillers.
    Max(u32, Iri, Node),
    /// What has exactly so many fillers.
    Exact(u32, Iri, Node),
}

impl Cell {
    /// The nodes of the parts, in order.
    #[tactic(auto, unfolding(crate::specs::Pool::nodes_of))]
    pub fn parts(&self) -> &[Node]
        ensures { result.now ≡ nodes_of self.now }
    {
        match self {
            Cell::Thing => &[],
            Cell::Nothing => &[],
            Cell::Class(_) => &[],
            Cell::And(nodes) => nodes.as_slice(),
            Cell::Or(nodes) => nodes.as_slice(),
            Cell::Not(node) => from_ref(node),
            Cell::Some(_, node) => from_ref(node),
            Cell::All(_, node) => from_ref(node),
            Cell::Min(_, _, node) => from_ref(node),
            Cell::Max(_, _, node) => from_ref(node),
            Cell::Exact(_, _, node) => from_ref(node),
        }
    }
}
