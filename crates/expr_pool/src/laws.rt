//! What the cell of a node says of trees. Each law is the contract of a function that does nothing.
ghost use Rattle.expr_pool.specs.Laws.{OperandsRise, PartsAreThere, PartsHaveNodes};

use crate::{Cell, Node, Pool};

/// The cell of a proper group has at least two nodes, in the order of their trees' texts, and so none twice.
pub fn operands_rise(pool: &Pool, cell: &Cell)
    ensures { OperandsRise pool.now cell.now }
{}

/// Each part of a tree that is in the pool is in the pool: it has a node before the tree's own.
pub fn parts_are_there(pool: &Pool, node: Node, cell: &Cell)
    ensures { PartsAreThere pool.now node.place cell.now }
{}

/// Each part of a tree that is in the pool, at whatever depth, is in the pool: it has a node that is not behind the
/// tree's own.
pub fn parts_have_nodes(pool: &Pool)
    ensures { PartsHaveNodes pool.now }
{
    let _cells = &pool.cells;
}
