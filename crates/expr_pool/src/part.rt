//! What is marked is closed under parts: one pass from the last node to the first, since parts stand before their wholes.
ghost use Rattle.std.specs.Prelude.{◌≡◌, ◌<◌, length};
ghost use Rattle.expr_pool.specs.Part.{AreBefore, AreMarked, AreReached, AreSound, IsClosed, IsMarked, Keeps, flag_nodes, parts_at};

use crate::{Node, Pool};

/// Marks nodes.
fn flag(flags: &mut Vec<bool>, nodes: &[Node])
    requires { AreBefore (length flags.old.items) nodes.now }
    ensures { flags.new.items ≡ flag_nodes flags.old.items nodes.now }
{
    for node in nodes {
        let at = node.place as usize;
        flags[at] = true;
    }
}

/// Marks the parts of a node that is marked.
fn mark_at(pool: &Pool, flags: &mut Vec<bool>, at: u64)
    requires long { length flags.old.items ≡ length pool.now }
    requires at { at < length pool.now }
    ensures long { length flags.new.items ≡ length pool.now }
    ensures kept { Keeps flags.old.items flags.new.items }
    ensures parts { IsMarked flags.old.items at → AreMarked pool.now flags.new.items (parts_at pool.now at) }
    ensures sound { AreReached pool.now at flags.old.items flags.new.items }
{
    if flags[at as usize] {
        flag(flags, pool.node(pool.at(at)).parts());
    }
}

/// Marks the parts of all that is marked, and their parts, and nothing else. It takes time in proportion to the pool.
pub fn mark_parts(pool: &Pool, flags: &mut Vec<bool>)
    requires long { length flags.old.items ≡ length pool.now }
    ensures long { length flags.new.items ≡ length pool.now }
    ensures kept { Keeps flags.old.items flags.new.items }
    ensures closed { IsClosed pool.now flags.new.items }
    ensures sound { AreSound pool.now flags.old.items flags.new.items }
{
    let n = pool.len();
    for done in 0..n {
        mark_at(pool, flags, n - 1 - done);
    }
}
