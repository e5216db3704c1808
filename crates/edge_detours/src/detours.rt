//! Detours in rows of edges that never fall: what two rising edges, one after the other, lead to. One walk marks them
//! for a start, pruned above its greatest target and ended when all its targets but the least are marked.
ghost use Rattle.std.specs.Prelude.{◌≡◌, ℕ, ◌<◌, ◌≤◌, [], ◌∷◌, length, OnOk, IsTrue, true, false};
ghost use Rattle.fact_rows.specs.Member.{In};
ghost use Rattle.fact_rows.specs.Rows.{row};
ghost use Rattle.fact_rows.specs.Marks.{IsMarked};
ghost use Rattle.edge_detours.specs.inner.Rows.{IsRising, IsInside};
ghost use Rattle.edge_detours.specs.inner.Detours.{Pushes, IsGoing, AreBegun, MarksDetours};

use fact_rows::{Pairs, is_marked, pairs_at};
use std::alloc::{AllocError, Global};

/// Marks a target from low up to high that is not marked, and lets it wait.
pub fn push_one(
    target: u32,
    low: u32,
    high: u32,
    mark: u32,
    marks: &mut [u32],
    stack: &mut Vec<u32>,
) -> Result<(), AllocError>
    requires { target < length marks.old }
    ensures { (i : ℕ) → OnOk result (Pushes ((target, i) ∷ []) low high mark marks.old marks.new stack.old.items stack.new.items) }
{
    if target < low || high < target || marks[target as usize] == mark {
        return Ok(());
    }
    marks[target as usize] = mark;
    stack.push(target)?;
    Ok(())
}

/// Marks the targets from low up to high that are not marked, and lets them wait.
pub fn push_unmarked(
    targets: &[(u32, u32)],
    low: u32,
    high: u32,
    mark: u32,
    marks: &mut [u32],
    stack: &mut Vec<u32>,
) -> Result<(), AllocError>
    requires { (c i : ℕ) → In (c, i) targets.now → c < length marks.old }
    ensures { OnOk result (Pushes targets.now low high mark marks.old marks.new stack.old.items stack.new.items) }
{
    for (c, _) in targets {
        push_one(*c, low, high, mark, marks, stack)?;
    }
    Ok(())
}

/// The greatest target.
fn greatest(targets: &[(u32, u32)]) -> u32
    ensures { (c i : ℕ) → In (c, i) targets.now → c ≤ result }
{
    let mut high = 0;
    for (c, _) in targets {
        if high < *c {
            high = *c;
        }
    }
    high
}

/// The least target above the start.
fn least_above(targets: &[(u32, u32)], start: u32) -> u32
    ensures { (c i : ℕ) → In (c, i) targets.now → start < c → result ≤ c }
{
    let mut low = u32::MAX;
    for (c, _) in targets {
        if start < *c && *c < low {
            low = *c;
        }
    }
    low
}

/// Whether the edges from a target are to be walked: it is above the start, below high, and not marked.
fn wants(marks: &[u32], start: u32, high: u32, target: u32) -> bool
    ensures on { IsTrue result → (start < target) × (target < high) }
    ensures off { result ≡ false → start < target → target < high → IsMarked marks.now start target }
{
    start < target && target < high && !is_marked(marks, start, target)
}

/// Marks the ends of second edges, those of the least first edge first.
fn begin(
    alloc: Global,
    rows: &[Pairs],
    start: u32,
    high: u32,
    marks: &mut [u32],
    stack: &mut Vec<u32>,
) -> Result<(), AllocError>
    requires inside { IsInside (length marks.old) rows.now }
    requires clear { (x : ℕ) → IsMarked marks.old start x → ⊥ }
    requires empty { stack.old.items ≡ [] }
    ensures going { OnOk result (IsGoing rows.now start high marks.old marks.new stack.new.items) }
    ensures begun { OnOk result (AreBegun rows.now start high (row rows.now start) marks.new) }
{
    let mut order = Vec::from_slice(alloc, pairs_at(rows, start))?;
    order.sort_unstable();
    let firsts = order.as_slice();
    for (d, _) in firsts {
        if wants(marks, start, high, *d) {
            push_unmarked(pairs_at(rows, *d), *d + 1, high, start, marks, stack)?;
        }
    }
    Ok(())
}

/// Whether all targets above low are marked.
fn all_marked(targets: &[(u32, u32)], low: u32, start: u32, marks: &[u32]) -> bool
    ensures { result ≡ true → (c i : ℕ) → In (c, i) targets.now → low < c → IsMarked marks.now start c }
{
    for (c, _) in targets {
        if low < *c && !is_marked(marks, start, *c) {
            return false;
        }
    }
    true
}

/// Whether it is time for a test that costs as much as so many turns.
fn is_time(turns: usize, size: usize) -> bool {
    if size == 0 {
        return true;
    }
    turns % size == 0
}

/// Whether all targets above low are marked, tested now and then alone.
fn is_over(turns: usize, targets: &[(u32, u32)], low: u32, start: u32, marks: &[u32]) -> bool
    ensures { result ≡ true → (c i : ℕ) → In (c, i) targets.now → low < c → IsMarked marks.now start c }
{
    if !is_time(turns, targets.len()) {
        return false;
    }
    all_marked(targets, low, start, marks)
}

/// Marks by the start only what it has a detour to, and of its targets all to which it has one.
pub fn mark_detours(
    alloc: Global,
    rows: &[Pairs],
    start: u32,
    marks: &mut [u32],
) -> Result<(), AllocError>
    requires rising { IsRising rows.now }
    requires inside { IsInside (length marks.old) rows.now }
    requires clear { (x : ℕ) → IsMarked marks.old start x → ⊥ }
    ensures { OnOk result (MarksDetours rows.now start marks.old marks.new) }
{
    let targets = pairs_at(rows, start);
    let high = greatest(targets);
    let low = least_above(targets, start);
    let mut stack = Vec::new(alloc);
    begin(alloc, rows, start, high, marks, &mut stack)?;
    if all_marked(targets, low, start, marks) {
        return Ok(());
    }
    let mut turns: usize = 0;
    while let Some(x) = stack.pop() {
        push_unmarked(pairs_at(rows, x), x, high, start, marks, &mut stack)?;
        turns = turns.wrapping_add(1);
        if is_over(turns, targets, low, start, marks) {
            return Ok(());
        }
    }
    Ok(())
}
