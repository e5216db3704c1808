//! Ranks for the nodes: the strongly connected components in an order that edges allow, by two searches in depth
//! (Kosaraju). Nothing is promised here, and nothing has to be: `ranks` tests what comes out.
use crate::ranks::rank_of;
use fact_rows::{Pairs, fresh_flags, fresh_marks, pairs_at};
use std::alloc::{AllocError, Global};

/// Flags a node, and says whether it had no flag.
fn visit(seen: &mut [bool], x: u32) -> bool {
    match seen.get_mut(x as usize) {
        Some(flag) => {
            if *flag {
                return false;
            }
            *flag = true;
            true
        }
        None => false,
    }
}

/// The nodes in the order in which a search in depth leaves them.
fn leaving_order(alloc: Global, node_count: u32, rows: &[Pairs]) -> Result<Vec<u32>, AllocError> {
    let mut seen = fresh_flags(alloc, node_count)?;
    let mut order = Vec::new(alloc);
    let mut stack: Vec<(u32, u32)> = Vec::new(alloc);
    for start in 0..node_count {
        if visit(seen.as_mut_slice(), start) {
            stack.push((start, 0))?;
            descend(rows, &mut seen, &mut stack, &mut order)?;
        }
    }
    Ok(order)
}

/// Goes on with a search in depth until nothing waits. Beside each node stands the next of its edges.
fn descend(
    rows: &[Pairs],
    seen: &mut Vec<bool>,
    stack: &mut Vec<(u32, u32)>,
    order: &mut Vec<u32>,
) -> Result<(), AllocError> {
    for _turn in 0..u64::MAX {
        let Some((x, at)) = stack.pop() else {
            return Ok(());
        };
        match pairs_at(rows, x).get(at as usize) {
            Some((y, _)) => {
                stack.push((x, at.saturating_add(1)))?;
                if visit(seen.as_mut_slice(), *y) {
                    stack.push((*y, 0))?;
                }
            }
            None => order.push(x)?,
        }
    }
    Ok(())
}

/// Gives a rank to what leads to a node and has none yet.
fn gather(
    rows: &[Pairs],
    start: u32,
    rank: u32,
    seen: &mut Vec<bool>,
    ranks: &mut Vec<u32>,
    stack: &mut Vec<u32>,
) -> Result<(), AllocError> {
    stack.push(start)?;
    for _turn in 0..u64::MAX {
        let Some(x) = stack.pop() else {
            return Ok(());
        };
        if let Some(place) = ranks.get_mut(x as usize) {
            *place = rank;
        }
        for (y, _) in pairs_at(rows, x) {
            if visit(seen.as_mut_slice(), *y) {
                stack.push(*y)?;
            }
        }
    }
    Ok(())
}

/// A rank for each node: of one component all the same, and no edge falls.
pub fn find_ranks(
    alloc: Global,
    node_count: u32,
    rows: &[Pairs],
    back: &[Pairs],
) -> Result<Vec<u32>, AllocError> {
    let order = leaving_order(alloc, node_count, rows)?;
    let mut seen = fresh_flags(alloc, node_count)?;
    let mut ranks = fresh_marks(alloc, node_count, 0)?;
    let mut stack = Vec::new(alloc);
    let mut rank: u32 = 0;
    for x in order.iter().rev() {
        if visit(seen.as_mut_slice(), *x) {
            gather(back, *x, rank, &mut seen, &mut ranks, &mut stack)?;
            rank = rank.saturating_add(1);
        }
    }
    Ok(ranks)
}

/// A node for each rank: the last that has it.
pub fn find_roots(alloc: Global, node_count: u32, ranks: &[u32]) -> Result<Vec<u32>, AllocError> {
    let mut roots = fresh_marks(alloc, node_count, 0)?;
    for x in 0..node_count {
        if let Some(place) = roots.get_mut(rank_of(ranks, x) as usize) {
            *place = x;
        }
    }
    Ok(roots)
}
