//! How far a file is read: a piece more, and its end.
ghost use Rattle.std.specs.Prelude.{◌≡◌, ◌+◌, ◌^◌, ◌<◌, IfOk, length};
ghost use Rattle.obo_frames.specs.Feeding as feeding;

use crate::judged::judged;
use crate::lines::{SoFar, nothing_read, read_waiting};
use crate::{DocFault, Document};
use obo_lexer::LineFeeder;
use rel_io::NoMemory;
use std::alloc::Global;
use std::marker::Model;

/// Of how many bytes at a time the lines are taken before more are fed.
const PART: usize = 65_536;

/// A file that is read up to some byte, and has no faulty line so far.
#[derive(Drop)]
pub struct Reading {
    lines: LineFeeder,
    so_far: SoFar,
}

impl Model for Reading {
    ghost use Rattle.obo_frames.specs.Feeding.{Midway};
    ghost use Rattle.obo_frames.specs.inner.Reading.{IsUnderWay};

    ghost Value = { Midway };

    ghost view = { λ reading. record { lines = reading.lines; so_far = reading.so_far } };

    ghost invariant = { λ reading. IsUnderWay (record { lines = reading.lines; so_far = reading.so_far }) };
}

/// The file, before its first byte.
pub fn untouched(alloc: Global, limit: u32) -> Result<Reading, NoMemory>
    ensures { IfOk result (λ reading. reading ≡ feeding.untouched limit) }
{
    let lines = LineFeeder::new(alloc, limit)?;
    let so_far = nothing_read(alloc);
    Ok(Reading { lines, so_far })
}

/// The file with a piece more. A long piece is read in parts, so that the lines of one part alone wait at a time.
pub fn read_piece(alloc: Global, reading: Reading, piece: &[u8]) -> Result<Reading, DocFault>
    requires { reading.lines.fed + length piece.now < 2 ^ 32 }
    ensures { feeding.IsAnswer (feeding.read_piece reading piece.now) result }
{
    let mut reading = reading;
    let mut left = piece;
    while left.len() > PART {
        let (part, later) = left.split_at(PART);
        reading = read_part(alloc, reading, part)?;
        left = later;
    }
    read_part(alloc, reading, left)
}

/// The file with a piece more, of which all lines wait before they are read.
fn read_part(alloc: Global, reading: Reading, part: &[u8]) -> Result<Reading, DocFault>
    requires { reading.lines.fed + length part.now < 2 ^ 32 }
    ensures { feeding.IsAnswer (feeding.read_piece reading part.now) result }
{
    let Reading { lines, so_far } = reading;
    let mut lines = lines;
    lines.feed(part)?;
    let so_far = read_waiting(alloc, &mut lines, so_far)?;
    Ok(Reading { lines, so_far })
}

/// The document of the file, which ends here, or its first fault.
pub fn read_end(alloc: Global, reading: Reading) -> Result<Document, DocFault>
    ensures { feeding.IsAnswer (feeding.read_end reading) result }
{
    let Reading { lines, so_far } = reading;
    let mut lines = lines;
    lines.finish()?;
    let SoFar { draft, .. } = read_waiting(alloc, &mut lines, so_far)?;
    drop(lines);
    judged(alloc, draft)
}
