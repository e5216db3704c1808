//! The number of each node that occurs.
ghost use Rattle.std.specs.Prelude.{◌≡◌, ◌<◌, ◌^◌, IfOk, length, map, replicate, slice_set};
ghost use Rattle.fact_rows.specs.Member.{In, NoRepeats};
ghost use Rattle.expr_pool.specs.declared.cell.Node.{Node};
ghost use Rattle.el_saturate.specs.inner.Numbers as spec;

use el_part::ElPart;
use expr_pool::Node;
use fact_rows::Numbers;
use rel_io::NoMemory;
use std::alloc::Global;

/// What stands in the place of a number for a node that does not occur.
const NONE: u32 = 4294967295;

/// So many places without a number.
fn no_numbers(alloc: Global, count: u64) -> Result<Vec<u32>, NoMemory>
    ensures { IfOk result (λ numbers. numbers.items ≡ replicate count spec.none) }
{
    let mut numbers = Vec::new(alloc);
    for _made in 0..count {
        numbers.push(NONE)?;
    }
    Ok(numbers)
}

/// Gives the node of a place a number.
fn set_number(numbers: &mut Vec<u32>, place: u64, number: u32)
    requires { place < length numbers.old.items }
    ensures { numbers.new.items ≡ slice_set numbers.old.items place number }
{
    numbers[place as usize] = number;
}

/// The number of each node that occurs in a part, in its place.
pub(crate) fn number_nodes(alloc: Global, part: &ElPart, count: u64) -> Result<Vec<u32>, NoMemory>
    requires within { (n : Node) → In n part.now.occurring → n.place < count }
    requires once { NoRepeats part.now.occurring }
    requires small { length part.now.occurring < 2 ^ 32 }
    ensures { IfOk result (λ numbers. spec.AreNumbers part.now.occurring count numbers.items) }
{
    let mut numbers = no_numbers(alloc, count)?;
    for at in 0..part.occurring() {
        set_number(&mut numbers, part.occurs(at).place(), at as u32);
    }
    Ok(numbers)
}

/// The number of a node.
pub(crate) fn number_of(numbers: &[u32], node: Node) -> u32
    ensures { result ≡ spec.number_of numbers.now node }
{
    match numbers.get(node.place() as usize) {
        Some(number) => *number,
        None => 0,
    }
}

/// The numbers of nodes, in order.
pub(crate) fn numbers_of(
    alloc: Global,
    numbers: &[u32],
    nodes: &[Node],
) -> Result<Numbers, NoMemory>
    ensures { IfOk result (λ made. made ≡ map (spec.number_of numbers.now) nodes.now) }
{
    let mut made = Numbers::new(alloc);
    for node in nodes {
        made.push(number_of(numbers, *node))?;
    }
    Ok(made)
}
