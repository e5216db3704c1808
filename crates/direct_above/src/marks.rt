//! Marks for what has a class strictly between the lower class and itself.
ghost use Rattle.std.specs.Prelude.{◌≡◌, ℕ, ◌<◌, ◌++◌, ◌↔◌, List, [], ◌∷◌, length, IsTrue};
ghost use Rattle.fact_rows.specs.Member.{In};
ghost use Rattle.fact_rows.specs.Rows.{row};
ghost use Rattle.fact_rows.specs.Marks.{IsMarked};
ghost use Rattle.direct_above.specs.Direct.{IsPreorder};
ghost use Rattle.direct_above.specs.inner.Marks.{MarksAbove, IsGoing, MarksAll};

use fact_rows::{NumberSet, is_marked, mark, mark_if, number_set_at};

/// Whether a row is shorter than a size.
fn has_fewer(rows: &[NumberSet], at: u32, size: usize) -> bool
    ensures { IsTrue result ↔ (length (row rows.now at) < size) }
{
    number_set_at(rows, at).len() < size
}

/// Marks what stands strictly above a class, and covers all that stands above it.
fn mark_above(rows: &[NumberSet], stamp: u32, middle: u32, seen: &mut [u32], covered: &mut [u32])
    requires seen { (b : ℕ) → In b (row rows.now middle) → b < length seen.old }
    requires covered { (b : ℕ) → In b (row rows.now middle) → b < length covered.old }
    ensures { MarksAbove rows.now stamp middle (row rows.now middle) seen.old covered.old seen.new covered.new }
{
    let above = number_set_at(rows, middle);
    let size = above.len();
    for upper in above {
        let is_strict = has_fewer(rows, *upper, size);
        mark_if(seen, is_strict, stamp, *upper);
        mark(covered, stamp, *upper);
    }
}

/// Marks what stands strictly above a class, if the class is not covered. What stands strictly above a covered class is
/// marked already.
fn mark_above_uncovered(
    rows: &[NumberSet],
    stamp: u32,
    middle: u32,
    seen: &mut [u32],
    covered: &mut [u32],
)
    requires order { IsPreorder rows.now }
    requires seen { length seen.old ≡ length rows.now }
    requires covered { length covered.old ≡ length rows.now }
    ensures { (k : ℕ) (xs : List (ℕ × ℕ)) (old covers_old : List ℕ) → IsGoing rows.now stamp xs old covers_old seen.old covered.old → IsGoing rows.now stamp (xs ++ (k, middle) ∷ []) old covers_old seen.new covered.new }
{
    if is_marked(covered, stamp, middle) {
        return;
    }
    mark_above(rows, stamp, middle, seen, covered);
}

/// Marks what stands strictly above one of the candidates.
pub fn mark_between(
    rows: &[NumberSet],
    stamp: u32,
    order: &[(u32, u32)],
    seen: &mut [u32],
    covered: &mut [u32],
)
    requires order { IsPreorder rows.now }
    requires seen { length seen.old ≡ length rows.now }
    requires covered { length covered.old ≡ length rows.now }
    requires clear { (b : ℕ) → IsMarked seen.old stamp b → ⊥ }
    requires covers_clear { (b : ℕ) → IsMarked covered.old stamp b → ⊥ }
    ensures { IsGoing rows.now stamp order.now seen.old covered.old seen.new covered.new }
{
    for (_, middle) in order {
        mark_above_uncovered(rows, stamp, *middle, seen, covered);
    }
}

/// Marks all numbers of a list.
pub fn mark_all(marks: &mut [u32], stamp: u32, numbers: &[u32])
    requires { (b : ℕ) → In b numbers.now → b < length marks.old }
    ensures { MarksAll stamp numbers.now marks.old marks.new }
{
    for number in numbers {
        mark(marks, stamp, *number);
    }
}
