//! A pool as a forest: its trees are its nodes.
ghost use Rattle.std.specs.Prelude.{◌<◌, length};
ghost use Rattle.expr_pool.specs.Pool.{tree_at};

use crate::{Forest, Look};
use expr_pool::{Cell, Node, Pool};

impl Forest for Pool {
    type Tree = Node;

    ghost has = { λ pool node. node.place < length pool };

    ghost stands = { λ pool node. tree_at pool node };

    fn look(&self, tree: Node) -> Look<'_, Node> {
        match self.node(tree) {
            Cell::Thing => Look::Thing,
            Cell::Nothing => Look::Nothing,
            Cell::Class(name) => Look::Class(name),
            Cell::And(parts) => Look::And(parts.as_slice().len()),
            Cell::Or(parts) => Look::Or(parts.as_slice().len()),
            Cell::Not(part) => Look::Not(*part),
            Cell::Some(role, part) => Look::Some(role, *part),
            Cell::All(role, part) => Look::All(role, *part),
            Cell::Min(n, role, part) => Look::Min(*n, role, *part),
            Cell::Max(n, role, part) => Look::Max(*n, role, *part),
            Cell::Exact(n, role, part) => Look::Exact(*n, role, *part),
        }
    }

    fn operand(&self, tree: Node, at: usize) -> Node {
        self.node(tree).parts()[at]
    }
}
