//! `LineFeeder`: the bytes of a file go in, in pieces of any length, and its lines come out.
ghost use Rattle.std.specs.Prelude.{◌≡◌, ℕ, ◌+◌, ◌^◌, ◌<◌, ◌≤◌, ◌↔◌, ◌⊎◌, [], ◌∷◌, ◌++◌, false, IfNone, IfOk, IfSome, IsErr, IsNone, IsTrue, OnErr, OnOk, length};
ghost use Rattle.obo_lexer.specs.Feeding.{unmarked};

use crate::LineItem;
use crate::line::body_of;
use memchr::memchr;
use rel_io::NoMemory;
use std::alloc::Global;
use std::collections::VecDeque;
use std::marker::Model;
use std::mem::replace;

/// The byte that ends a line.
const LINE_FEED: u8 = b'\n';

/// The byte order mark in UTF-8.
const BYTE_ORDER_MARK: [u8; 3] = [0xEF, 0xBB, 0xBF];

/// How far the lines of a file have come.
#[derive(Drop)]
struct Lines {
    alloc: Global,
    limit: u32,
    ended: u32,
    rest: Vec<u8>,
    waiting: VecDeque<LineItem>,
}

impl Lines {
    ghost use Rattle.obo_lexer.specs.Feeding.{begun, ended_with, fed_with, finished};
    ghost use Rattle.obo_lexer.specs.inner.Held.{progress_of};
    ghost use Rattle.obo_lexer.specs.Lines.{HasNoLineFeed};

    /// The bytes of the piece come, and each line that it ends waits from now on.
    fn take_in(&mut self, piece: &[u8]) -> Result<(), NoMemory>
        requires no_feed { HasNoLineFeed self.old.rest.items }
        requires few { self.old.ended + length piece.now < 2 ^ 32 }
        ensures ok { OnOk result (progress_of self.new ≡ fed_with (progress_of self.old) piece.now) }
        ensures limit { self.new.limit ≡ self.old.limit }
        ensures no_feed { OnOk result (HasNoLineFeed self.new.rest.items) }
        ensures counted { OnOk result (self.new.ended + length self.new.rest.items ≤ self.old.ended + length self.old.rest.items + length piece.now) }
    {
        let mut left = piece;
        while let Some(at) = memchr(LINE_FEED, left) {
            self.rest.extend_from_slice(&left[..at])?;
            self.end_line()?;
            left = &left[at + 1..];
        }
        self.rest.extend_from_slice(left)?;
        Ok(())
    }

    /// The file ends, and with it the last line, if there is one.
    fn finish(&mut self) -> Result<(), NoMemory>
        requires few { self.old.ended + length self.old.rest.items < 2 ^ 32 }
        ensures ok { OnOk result (progress_of self.new ≡ finished (progress_of self.old)) }
        ensures limit { self.new.limit ≡ self.old.limit }
    {
        if self.has_more() {
            self.end_line()?;
        } else {
            self.rest.clear();
        }
        Ok(())
    }

    /// Whether some byte of a line stands behind the last end of a line.
    fn has_more(&self) -> bool
        ensures { IsTrue result ↔ (0 < length (unmarked self.now.ended self.now.rest.items)) }
    {
        !behind_mark(self.ended, self.rest.as_slice()).is_empty()
    }

    /// Nothing is kept but the limit.
    fn forget(&mut self)
        ensures { progress_of self.new ≡ begun self.old.limit }
    {
        self.ended = 0;
        self.rest.clear();
        self.waiting.clear();
    }

    /// What stands behind the last end of a line is a line, and waits from now on.
    fn end_line(&mut self) -> Result<(), NoMemory>
        requires { self.old.ended + 1 < 2 ^ 32 }
        ensures limit { self.new.limit ≡ self.old.limit }
        ensures ok { OnOk result
            (progress_of self.new ≡ ended_with (progress_of self.old) (self.old.rest.items ∷ []) []) }
    {
        let rest = replace(&mut self.rest, Vec::new(self.alloc));
        let line = unmarked(self.alloc, self.ended, rest)?;
        let number = self.ended + 1;
        let body = body_of(self.limit, line);
        self.waiting.push_back(LineItem { number, body })?;
        self.ended = number;
        Ok(())
    }
}

/// The line without the byte order mark, if it is the first of its file.
fn unmarked(alloc: Global, before: u32, line: Vec<u8>) -> Result<Vec<u8>, NoMemory>
    ensures { IfOk result (λ bare. bare.items ≡ unmarked before line.items) }
{
    if before != 0 || !line.as_slice().starts_with(&BYTE_ORDER_MARK) {
        return Ok(line);
    }
    let bare = Vec::from_slice(alloc, behind_mark(before, line.as_slice()))?;
    Ok(bare)
}

/// The bytes of a line behind the byte order mark, which only the first line of a file may have.
fn behind_mark(before: u32, line: &[u8]) -> &[u8]
    ensures { result.now ≡ unmarked before line.now }
{
    if before == 0 && line.starts_with(&BYTE_ORDER_MARK) {
        &line[3..]
    } else {
        line
    }
}

/// Reads a file in pieces. The lines that were taken from it, followed by those that wait, are the ended
/// lines of all bytes fed, with their numbers, however the bytes were cut. A file has fewer than 2^32
/// bytes. Each byte is looked at a bounded number of times. The first call that finds no memory leaves
/// the feeder spent: it keeps no line, and gives and takes none from then on.
#[derive(Drop)]
pub struct LineFeeder {
    lines: Lines,
    fed: u32,
    is_finished: bool,
    is_spent: bool,
}

impl Model for LineFeeder {
    ghost use Rattle.obo_lexer.specs.Feeding.{Feeder};
    ghost use Rattle.obo_lexer.specs.inner.Held.{IsSound, progress_of};

    ghost Value = { Feeder };

    ghost view = { λ f. record {
      lines = progress_of f.lines;
      fed = f.fed;
      is_finished = f.is_finished;
      is_spent = f.is_spent;
    } };

    ghost invariant = { λ f. IsSound f.lines f.fed };
}

impl LineFeeder {
    ghost use Rattle.obo_lexer.specs.Items.{HasLineText};
    ghost use Rattle.obo_lexer.specs.Feeding.{after_end, after_piece, fresh, spent, with_first};

    /// A feeder at the start of a file, for lines of at most `limit` bytes.
    pub fn new(alloc: Global, limit: u32) -> Result<LineFeeder, NoMemory>
        ensures { IfOk result (λ feeder. feeder ≡ fresh limit) }
    {
        let lines = Lines {
            alloc,
            limit,
            ended: 0,
            rest: Vec::new(alloc),
            waiting: VecDeque::new(alloc),
        };
        Ok(LineFeeder {
            lines,
            fed: 0,
            is_finished: false,
            is_spent: false,
        })
    }

    /// The next bytes of the file. `Err` only for want of memory, now or before.
    pub fn feed(&mut self, piece: &[u8]) -> Result<(), NoMemory>
        requires unfinished { self.old.is_finished ≡ false }
        requires few { self.old.fed + length piece.now < 2 ^ 32 }
        ensures ok { OnOk result (self.new ≡ after_piece self.old piece.now) }
        ensures err { OnErr result (self.new ≡ spent self.old) }
        ensures stays_spent { IsTrue self.old.is_spent → IsErr result }
    {
        if self.is_spent || self.lines.take_in(piece).is_err() {
            self.lines.forget();
            self.is_spent = true;
            return Err(NoMemory);
        }
        self.fed += piece.len() as u32;
        Ok(())
    }

    /// The end of the file. `Err` only for want of memory, now or before.
    pub fn finish(&mut self) -> Result<(), NoMemory>
        requires unfinished { self.old.is_finished ≡ false }
        ensures ok { OnOk result (self.new ≡ after_end self.old) }
        ensures err { OnErr result (self.new ≡ spent self.old) }
        ensures stays_spent { IsTrue self.old.is_spent → IsErr result }
    {
        if self.is_spent || self.lines.finish().is_err() {
            self.lines.forget();
            self.is_spent = true;
            return Err(NoMemory);
        }
        self.is_finished = true;
        Ok(())
    }

    /// Takes the oldest line that has ended, if one waits.
    pub fn take_line(&mut self) -> Option<LineItem>
        ensures some { IfSome result (λ line. self.old ≡ with_first line self.new) }
        ensures none { IfNone result (self.new ≡ self.old) }
        ensures text { IfSome result (λ line. HasLineText self.old.lines.limit line.body) }
        ensures none_waits { IsNone result ↔ ((self.old.lines.waiting ≡ []) ⊎ IsTrue self.old.is_spent) }
    {
        if self.is_spent {
            return None;
        }
        self.lines.waiting.pop_front()
    }
}
