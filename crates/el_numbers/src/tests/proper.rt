//! A test of a part made by hand: whether its numbers fit together.
ghost use Rattle.std.specs.Prelude.{◌≡◌, ℕ, ◌<◌, Option, length, slice_get, IsTrue};
ghost use Rattle.fact_rows.specs.Member.{In};
ghost use Rattle.fact_rows.specs.Rows.{row};
ghost use Rattle.el_numbers.specs.Proper.{IsProper};
ghost use Rattle.el_numbers.specs.inner.Fits.{Fits};

use crate::index::shape_at;
use crate::{NumberedPart, Shape};
use fact_rows::{Numbers, numbers_at};

/// Whether all numbers are below a count.
fn are_below(numbers: &[u32], count: u32) -> bool
    ensures { IsTrue result → (x : ℕ) → In x numbers.now → x < count }
{
    for number in numbers {
        if *number >= count {
            return false;
        }
    }
    true
}

/// Whether the first numbers are below the one count and the second below the other.
fn pairs_are_below(pairs: &[(u32, u32)], first: u32, second: u32) -> bool
    ensures { IsTrue result → (d e : ℕ) → In (d, e) pairs.now → (d < first) × (e < second) }
{
    for (one, other) in pairs {
        if *one >= first || *other >= second {
            return false;
        }
    }
    true
}

/// Whether all three numbers of each are below a count.
fn triples_are_below(triples: &[(u32, u32, u32)], count: u32) -> bool
    ensures { IsTrue result → (r s t : ℕ) → In (r, s, t) triples.now → (r < count) × (s < count) × (t < count) }
{
    for (one, other, third) in triples {
        if *one >= count || *other >= count || *third >= count {
            return false;
        }
    }
    true
}

/// Whether an expression of this shape may have these operands.
fn fits(shape: Option<Shape>, operands: &[u32], count: u32) -> bool
    ensures { IsTrue result → Fits count shape operands.now }
{
    match shape {
        None => false,
        Some(Shape::Name) => operands.is_empty(),
        Some(Shape::And) => !operands.is_empty() && are_below(operands, count),
        Some(Shape::Some(_, filler)) => operands.is_empty() && filler < count,
    }
}

/// Whether the shapes and the operands of all expressions fit.
fn all_fit(count: u32, shapes: &[Shape], operands: &[Numbers]) -> bool
    ensures { IsTrue result → (a : ℕ) → a < count → Fits count (slice_get shapes.now a) (row operands.now a) }
{
    for at in 0..count {
        if !fits(shape_at(shapes, at), numbers_at(operands, at), count) {
            return false;
        }
    }
    true
}

/// Whether the numbers of a part fit together, so that it can be saturated.
pub(super) fn is_proper(part: &NumberedPart) -> bool
    ensures { IsTrue result → IsProper part.now }
{
    let size = part.shapes.len();
    if size < 2 || size > u32::MAX as usize || part.operands.len() > size {
        return false;
    }
    let count = size as u32;
    let roles = part.role_count;
    if !all_fit(count, &part.shapes, &part.operands) {
        return false;
    }
    if !pairs_are_below(&part.inclusions, count, count) {
        return false;
    }
    if !pairs_are_below(&part.disjoints, count, count) {
        return false;
    }
    if !pairs_are_below(&part.role_inclusions, roles, roles) {
        return false;
    }
    if !triples_are_below(&part.chains, roles) {
        return false;
    }
    pairs_are_below(&part.domains, roles, count)
}
