//! `DocumentFeeder`: the bytes of a file go in, in pieces of any length, and its document comes out.
ghost use Rattle.std.specs.Prelude.{◌≡◌, ◌+◌, ◌^◌, ◌<◌, ◌≤◌, ◌↔◌, ℕ, List, Err, IfOk, IsErr, OnErr, OnOk, length};
ghost use Rattle.obo_frames.specs.Feeding as feeding;
ghost use Rattle.obo_frames.specs.Feeding.{IsAnswer, then_read};
ghost use Rattle.obo_frames.specs.declared.fault.DocFault.TheVariants as fault;
ghost use Rattle.obo_frames.specs.inner.Reading.{fed_so_far};

use crate::reading::{Reading, read_end, read_piece, untouched};
use crate::{DocFault, Document};
use rel_io::NoMemory;
use std::alloc::Global;
use std::marker::Model;
use std::mem::replace;

/// Reads a document from the pieces of a file. However the bytes are cut, it comes to the document of all bytes fed, or to
/// their first fault. A file has fewer than 2^32 bytes. Each line is read as soon as it has ended, and is kept no longer;
/// behind a faulty line the bytes are not looked at. The first call that finds no memory leaves the feeder spent: it keeps
/// nothing, and answers the same from then on.
#[derive(Drop)]
pub struct DocumentFeeder {
    alloc: Global,
    fed: u32,
    read: Result<Reading, DocFault>,
}

impl Model for DocumentFeeder {
    ghost use Rattle.std.specs.Prelude.{◌≤◌};
    ghost use Rattle.obo_frames.specs.Feeding.{Feeder};
    ghost use Rattle.obo_frames.specs.inner.Reading.{fed_so_far};

    ghost Value = { Feeder };

    ghost view = { λ feeder. record { fed = feeder.fed; read = feeder.read } };

    ghost invariant = { λ feeder. fed_so_far feeder.read ≤ feeder.fed };
}

impl DocumentFeeder {
    ghost use Rattle.obo_frames.specs.Answer.{AnswersIt};
    ghost use Rattle.obo_frames.specs.Feeding.{IsFed, IsSpent, after_piece, finished, fresh, spent};

    /// A feeder at the start of a file, for lines of at most `line_limit` bytes.
    pub fn new(alloc: Global, line_limit: u32) -> Result<DocumentFeeder, NoMemory>
        ensures { IfOk result (λ feeder. feeder ≡ fresh line_limit) }
    {
        let reading = untouched(alloc, line_limit)?;
        Ok(DocumentFeeder {
            alloc,
            fed: 0,
            read: Ok(reading),
        })
    }

    /// The next bytes of the file. `Err` only for want of memory, now or before.
    pub fn feed(&mut self, piece: &[u8]) -> Result<(), NoMemory>
        requires few { self.old.fed + length piece.now < 2 ^ 32 }
        ensures ok { OnOk result (self.new ≡ after_piece self.old piece.now) }
        ensures err { OnErr result (self.new ≡ spent self.old) }
        ensures stays_spent { IsSpent self.old → IsErr result }
    {
        let read = replace(&mut self.read, Err(DocFault::NoMemory));
        self.read = read_more(self.alloc, read, piece)?;
        self.fed += piece.len() as u32;
        Ok(())
    }

    /// The end of the file: its document, or its first fault.
    pub fn finish(self) -> Result<Document, DocFault>
        ensures answer { IsAnswer (finished self) result }
        ensures document { (limit : ℕ) (bytes : List ℕ) → IsFed limit bytes self → AnswersIt limit bytes result }
        ensures stays_spent { IsSpent self → result ≡ Err fault.NoMemory }
    {
        let DocumentFeeder { alloc, read, .. } = self;
        ended(alloc, read)
    }
}

/// How far the file is read with a piece more. Behind a fault no piece is looked at.
fn read_more(
    alloc: Global,
    read: Result<Reading, DocFault>,
    piece: &[u8],
) -> Result<Result<Reading, DocFault>, NoMemory>
    requires { fed_so_far read + length piece.now < 2 ^ 32 }
    ensures read { IfOk result (λ next. next ≡ then_read read (λ midway. feeding.read_piece midway piece.now)) }
    ensures counted { IfOk result (λ next. fed_so_far next ≤ fed_so_far read + length piece.now) }
    ensures spent { read ≡ Err fault.NoMemory → IsErr result }
{
    match read {
        Ok(reading) => unless_spent(read_piece(alloc, reading, piece)),
        Err(fault) => unless_spent(Err(fault)),
    }
}

/// What was read, unless memory was wanting.
fn unless_spent(read: Result<Reading, DocFault>) -> Result<Result<Reading, DocFault>, NoMemory>
    ensures same { IfOk result (λ next. next ≡ read) }
    ensures spent { IsErr result ↔ (read ≡ Err fault.NoMemory) }
{
    match read {
        Err(DocFault::NoMemory) => Err(NoMemory),
        read => Ok(read),
    }
}

/// What the file comes to.
fn ended(alloc: Global, read: Result<Reading, DocFault>) -> Result<Document, DocFault>
    ensures { IsAnswer (then_read read feeding.read_end) result }
{
    match read {
        Ok(reading) => read_end(alloc, reading),
        Err(fault) => Err(fault),
    }
}
