//! The direct edges, one declared class after the other.
ghost use Rattle.std.specs.Prelude.{◌≡◌, ℕ, ◌<◌, ◌^◌, length, IsTrue, IfOk, OnOk};
ghost use Rattle.fact_rows.specs.Member.{In};
ghost use Rattle.fact_rows.specs.Rows.{row};
ghost use Rattle.fact_rows.specs.Marks.{IsFlagged, IsMarked};
ghost use Rattle.direct_above.specs.Direct.{IsPreorder, AreDirect};
ghost use Rattle.direct_above.specs.inner.Edges.{IsPicked, Writes, WritesDirect};

use crate::candidates::{candidates, push_if};
use crate::marks::{mark_all, mark_between};
use fact_rows::{
    NumberSet, Numbers, fresh_marks, is_flagged, is_marked, number_set_at, numbers_at,
};
use std::alloc::{AllocError, Global};

/// Whether a number above the lower class is another class that is not marked.
fn is_picked(classes: &[bool], seen: &[u32], lower: u32, upper: u32) -> bool
    ensures on { IsTrue result → IsPicked classes.now seen.now lower upper }
    ensures each { IsPicked classes.now seen.now lower upper → IsTrue result }
{
    is_flagged(classes, upper) && lower != upper && !is_marked(seen, lower, upper)
}

/// Writes down the classes of a row that are not marked, beside the lower class.
fn write_picked(
    classes: &[bool],
    seen: &[u32],
    lower: u32,
    above: &[u32],
    out: &mut Vec<(u32, u32)>,
) -> Result<(), AllocError>
    ensures { OnOk result (Writes classes.now seen.now lower above.now out.old.items out.new.items) }
{
    for upper in above {
        let is_wanted = is_picked(classes, seen, lower, *upper);
        push_if(out, is_wanted, (lower, *upper))?;
    }
    Ok(())
}

/// Writes down the edges from one class. Its own number is the mark: marked is what has a class strictly between, and
/// what is told.
fn write_direct(
    alloc: Global,
    rows: &[NumberSet],
    told: &[Numbers],
    classes: &[bool],
    lower: u32,
    seen: &mut [u32],
    covered: &mut [u32],
    out: &mut Vec<(u32, u32)>,
) -> Result<(), AllocError>
    requires order { IsPreorder rows.now }
    requires told { (a b : ℕ) → In b (row told.now a) → b < length rows.now }
    requires seen { length seen.old ≡ length rows.now }
    requires covered { length covered.old ≡ length rows.now }
    requires clear { (b : ℕ) → IsMarked seen.old lower b → ⊥ }
    requires covers_clear { (b : ℕ) → IsMarked covered.old lower b → ⊥ }
    ensures { OnOk result (WritesDirect rows.now told.now classes.now lower out.old.items out.new.items seen.old seen.new covered.old covered.new) }
{
    let mut order = candidates(alloc, rows, classes, lower)?;
    order.sort_unstable();
    mark_between(rows, lower, order.as_slice(), seen, covered);
    mark_all(seen, lower, numbers_at(told, lower));
    write_picked(classes, seen, lower, number_set_at(rows, lower), out)?;
    Ok(())
}

/// The pairs of a declared class and a class directly above it that is not told, each once, in no promised order.
pub fn direct_edges(
    alloc: Global,
    rows: &[NumberSet],
    told: &[Numbers],
    classes: &[bool],
    declared: &[bool],
) -> Result<Vec<(u32, u32)>, AllocError>
    requires small { length rows.now < 2 ^ 32 }
    requires order { IsPreorder rows.now }
    requires told { (a b : ℕ) → In b (row told.now a) → b < length rows.now }
    requires declared { (a : ℕ) → IsFlagged declared.now a → a < length rows.now }
    ensures { IfOk result (λ out. AreDirect rows.now told.now classes.now declared.now out.items) }
{
    let count = rows.len() as u32;
    let mut marks = fresh_marks(alloc, count, count)?;
    let mut covers = fresh_marks(alloc, count, count)?;
    let seen = marks.as_mut_slice();
    let covered = covers.as_mut_slice();
    let mut out = Vec::new(alloc);
    for lower in 0..count {
        if is_flagged(declared, lower) {
            write_direct(alloc, rows, told, classes, lower, seen, covered, &mut out)?;
        }
    }
    Ok(out)
}
