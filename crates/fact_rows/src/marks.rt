//! Marks and flags: for each number from 0 a mark, which says in which walk the number was last met, or a flag. A walk
//! with a mark of its own needs no clearing.
ghost use Rattle.std.specs.Prelude.{◌≡◌, ◌<◌, ◌↔◌, IfOk, IsTrue, false, if◌then◌else◌, length, replicate, slice_set};
ghost use Rattle.fact_rows.specs.Marks.{IsFlagged, IsMarked};

use std::alloc::{AllocError, Global};

/// So many numbers, each with this mark.
pub fn fresh_marks(alloc: Global, count: u32, mark: u32) -> Result<Vec<u32>, AllocError>
    ensures { IfOk result (λ marks. marks.items ≡ replicate count mark) }
{
    let mut marks = Vec::new(alloc);
    for _made in 0..count {
        marks.push(mark)?;
    }
    Ok(marks)
}

/// So many numbers without a flag.
pub fn fresh_flags(alloc: Global, count: u32) -> Result<Vec<bool>, AllocError>
    ensures { IfOk result (λ flags. flags.items ≡ replicate count false) }
{
    let mut flags = Vec::new(alloc);
    for _made in 0..count {
        flags.push(false)?;
    }
    Ok(flags)
}

/// Whether a number has this mark.
pub fn is_marked(marks: &[u32], mark: u32, at: u32) -> bool
    ensures { IsTrue result ↔ IsMarked marks.now mark at }
{
    match marks.get(at as usize) {
        Some(found) => *found == mark,
        None => false,
    }
}

/// Whether a number has a flag.
pub fn is_flagged(flags: &[bool], at: u32) -> bool
    ensures { IsTrue result ↔ IsFlagged flags.now at }
{
    match flags.get(at as usize) {
        Some(found) => *found,
        None => false,
    }
}

/// Marks a number.
pub fn mark(marks: &mut [u32], mark: u32, at: u32)
    requires { at < length marks.old }
    ensures { marks.new ≡ slice_set marks.old at mark }
{
    marks[at as usize] = mark;
}

/// Marks a number where that is wanted.
pub fn mark_if(marks: &mut [u32], is_wanted: bool, mark: u32, at: u32)
    requires { at < length marks.old }
    ensures { marks.new ≡ (if is_wanted then slice_set marks.old at mark else marks.old) }
{
    if is_wanted {
        marks[at as usize] = mark;
    }
}
