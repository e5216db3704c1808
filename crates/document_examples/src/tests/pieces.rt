//! Small files that are fed in pieces, whose documents are to be those of the whole files.
ghost use Rattle.std.specs.Prelude.{◌+◌, ◌^◌, ◌<◌, length};

use obo_frames::{DocFault, Document, DocumentFeeder};
use std::alloc::Global;

/// The lengths of the pieces.
const SIZES: &[usize] = &[1, 2, 3, 65_536];

/// Whether the file comes to the same in pieces of each length, and cut in two at each place.
pub fn is_same_in_pieces(
    alloc: Global,
    file: &[u8],
    line_limit: u32,
    whole: &Result<Document, DocFault>,
) -> bool
    requires few { length file.now < 2 ^ 32 }
{
    let mut is_same = true;
    for size in SIZES {
        let read = read_in_pieces(alloc, file, (*size).max(1), line_limit);
        is_same &= is_same_as(whole, read);
    }
    is_same && is_same_in_two(alloc, file, line_limit, whole)
}

/// Whether the file comes to the same in pieces of one byte.
pub fn is_same_in_bytes(
    alloc: Global,
    file: &[u8],
    line_limit: u32,
    whole: &Result<Document, DocFault>,
) -> bool
    requires few { length file.now < 2 ^ 32 }
{
    is_same_as(whole, read_in_pieces(alloc, file, 1, line_limit))
}

/// Whether the file comes to the same cut in two at each place.
fn is_same_in_two(
    alloc: Global,
    file: &[u8],
    line_limit: u32,
    whole: &Result<Document, DocFault>,
) -> bool
    requires few { length file.now < 2 ^ 32 }
{
    let mut is_same = true;
    for place in 0..file.len() {
        let (front, back) = file.split_at(place);
        let read = read_in_two(alloc, front, back, line_limit);
        is_same &= is_same_as(whole, read);
    }
    is_same
}

/// What the file comes to in pieces of so many bytes, the last one maybe shorter.
fn read_in_pieces(
    alloc: Global,
    file: &[u8],
    size: usize,
    line_limit: u32,
) -> Result<Document, DocFault>
    requires sized { 0 < size }
    requires few { length file.now < 2 ^ 32 }
{
    let mut feeder = DocumentFeeder::new(alloc, line_limit)?;
    let mut left = file;
    while left.len() > size {
        let (piece, later) = left.split_at(size);
        feeder.feed(piece)?;
        left = later;
    }
    feeder.feed(left)?;
    feeder.finish()
}

/// What the file comes to that has these two pieces.
fn read_in_two(
    alloc: Global,
    front: &[u8],
    back: &[u8],
    line_limit: u32,
) -> Result<Document, DocFault>
    requires few { length front.now + length back.now < 2 ^ 32 }
{
    let mut feeder = DocumentFeeder::new(alloc, line_limit)?;
    feeder.feed(front)?;
    feeder.feed(back)?;
    feeder.finish()
}

/// Whether a file came to the same twice.
fn is_same_as(whole: &Result<Document, DocFault>, other: Result<Document, DocFault>) -> bool {
    match (whole, &other) {
        (Ok(one), Ok(two)) => one.as_slice() == two.as_slice(),
        (Err(one), Err(two)) => one == two,
        _ => false,
    }
}
