//! All that is reached from some nodes by parts.
ghost use Rattle.std.specs.Prelude.{◌≡◌, ◌<◌, ◌+◌, ◌++◌, ◌↔◌, Bool, false, if◌then◌else◌, [], ◌∷◌, IfOk, OnOk, length, replicate, IsTrue};
ghost use Rattle.expr_pool.specs.Part.{AreBefore, IsMarked, flag_nodes};
ghost use Rattle.el_part.specs.inner.Reached.{AreOccurring, AreReached, StartWithNames, is_other, others};

use crate::classes::nth;
use expr_pool::{Node, Pool, mark_parts, parts_have_nodes};
use rel_io::NoMemory;
use std::alloc::Global;

/// So many flags that are not raised.
fn lowered(alloc: Global, count: u64) -> Result<Vec<bool>, NoMemory>
    ensures { IfOk result (λ flags. flags.items ≡ replicate count false) }
{
    let mut flags = Vec::new(alloc);
    for _made in 0..count {
        flags.push(false)?;
    }
    Ok(flags)
}

/// Raises the flags of nodes.
fn raise(flags: &mut Vec<bool>, nodes: &[Node])
    requires { AreBefore (length flags.old.items) nodes.now }
    ensures { flags.new.items ≡ flag_nodes flags.old.items nodes.now }
{
    for node in nodes {
        let at = node.place() as usize;
        flags[at] = true;
    }
}

/// A flag for each node of a pool, raised exactly for what is one of these nodes or stands in one of their trees.
pub(crate) fn reached_from(
    alloc: Global,
    pool: &Pool,
    roots: &[Node],
) -> Result<Vec<bool>, NoMemory>
    requires { AreBefore (length pool.now) roots.now }
    ensures long { IfOk result (λ flags. length flags.items ≡ length pool.now) }
    ensures reached { IfOk result (λ flags. AreReached pool.now roots.now flags.items) }
{
    let mut flags = lowered(alloc, pool.len())?;
    raise(&mut flags, roots);
    mark_parts(pool, &mut flags);
    Ok(flags)
}

/// Whether the flag of a place is raised that is none of these two.
fn is_wanted(flags: &[bool], at: u64, one: Node, two: Node) -> bool
    requires { at < length flags.now }
    ensures { result ≡ is_other flags.now one.place two.place at }
{
    flags[at as usize] && at != one.place() && at != two.place()
}

/// One node more, where it is wanted.
fn push_if(nodes: &mut Vec<Node>, wanted: bool, node: Node) -> Result<(), NoMemory>
    ensures { OnOk result (nodes.new.items ≡ nodes.old.items ++ (if wanted then node ∷ [] else [])) }
{
    if !wanted {
        return Ok(());
    }
    nodes.push(node)?;
    Ok(())
}

/// Two nodes, and behind them all others whose flag is raised, in the order of their places.
pub(crate) fn flagged_nodes(
    alloc: Global,
    pool: &Pool,
    flags: &[bool],
    one: Node,
    two: Node,
) -> Result<Vec<Node>, NoMemory>
    requires { length flags.now ≡ length pool.now }
    ensures { IfOk result (λ nodes. nodes.items ≡ one ∷ two ∷ others (is_other flags.now one.place two.place) (length pool.now)) }
{
    let mut nodes = Vec::new(alloc);
    nodes.push(one)?;
    nodes.push(two)?;
    for at in 0..pool.len() {
        push_if(&mut nodes, is_wanted(flags, at, one, two), pool.at(at))?;
    }
    Ok(nodes)
}

/// The nodes of all that is reached from some nodes, those of Thing and Nothing first.
pub(crate) fn occurring_nodes(
    alloc: Global,
    pool: &Pool,
    roots: &[Node],
) -> Result<Vec<Node>, NoMemory>
    requires before { AreBefore (length pool.now) roots.now }
    requires start { StartWithNames pool.now roots.now }
    ensures { IfOk result (λ nodes. AreOccurring pool.now roots.now nodes.items) }
{
    parts_have_nodes(pool);
    let _count = pool.len();
    let flags = reached_from(alloc, pool, roots)?;
    let thing = nth(roots, 0);
    let nothing = nth(roots, 1);
    let nodes = flagged_nodes(alloc, pool, flags.as_slice(), thing, nothing)?;
    Ok(nodes)
}
