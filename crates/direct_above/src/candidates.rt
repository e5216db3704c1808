//! The classes strictly above a lower class, nearest first: each may stand between it and another class.
ghost use Rattle.std.specs.Prelude.{◌≡◌, ◌++◌, ◌↔◌, [], ◌∷◌, IsTrue, IfOk, OnOk, if◌then◌else◌};
ghost use Rattle.fact_rows.specs.Marks.{IsFlagged};
ghost use Rattle.direct_above.specs.inner.Marks.{IsShorter, AreCandidates};

use fact_rows::{NumberSet, is_flagged, number_set_at};
use std::alloc::{AllocError, Global};

/// Whether the first row is shorter than the second.
fn is_shorter(rows: &[NumberSet], upper: u32, lower: u32) -> bool
    ensures { IsTrue result ↔ IsShorter rows.now upper lower }
{
    number_set_at(rows, upper).len() < number_set_at(rows, lower).len()
}

/// Adds a pair where that is wanted.
pub fn push_if(
    made: &mut Vec<(u32, u32)>,
    is_wanted: bool,
    pair: (u32, u32),
) -> Result<(), AllocError>
    ensures { OnOk result (made.new.items ≡ (if is_wanted then made.old.items ++ pair ∷ [] else made.old.items)) }
{
    if is_wanted {
        made.push(pair)?;
    }
    Ok(())
}

/// Whether a number above the lower class is a class strictly above it: as many numbers stand above it, less at least
/// one.
fn is_candidate(rows: &[NumberSet], classes: &[bool], lower: u32, upper: u32) -> bool
    ensures on { IsTrue result → IsFlagged classes.now upper × IsShorter rows.now upper lower }
    ensures each { IsFlagged classes.now upper → IsShorter rows.now upper lower → IsTrue result }
{
    is_flagged(classes, upper) && is_shorter(rows, upper, lower)
}

/// The classes strictly above a class, beside keys by which those with most above them come first when sorted.
pub fn candidates(
    alloc: Global,
    rows: &[NumberSet],
    classes: &[bool],
    lower: u32,
) -> Result<Vec<(u32, u32)>, AllocError>
    ensures { IfOk result (λ made. AreCandidates rows.now classes.now lower made.items) }
{
    let above = number_set_at(rows, lower);
    let mut made = Vec::new(alloc);
    for upper in above {
        let is_wanted = is_candidate(rows, classes, lower, *upper);
        let size = u32::try_from(number_set_at(rows, *upper).len()).unwrap_or(u32::MAX);
        push_if(&mut made, is_wanted, (u32::MAX - size, *upper))?;
    }
    Ok(made)
}
