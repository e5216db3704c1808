//! Lines as they come, each read where it stands.
ghost use Rattle.std.specs.Prelude.{◌≡◌, IfErr, IfOk, OnOk, false};
ghost use Rattle.obo_frames.specs.Answer.{body_answer};
ghost use Rattle.obo_frames.specs.Feeding as feeding;
ghost use Rattle.obo_frames.specs.Telling.{IsTold};
ghost use Rattle.obo_frames.specs.inner.Reading.{IsItemFault};

use crate::DocFault;
use crate::standing::{Draft, empty_draft, placed_more};
use crate::told::{Place, Told, place_after, start};
use clause_reader::read_line;
use obo_clause::LineFault;
use obo_lexer::{LineBody, LineFeeder, LineItem};
use std::alloc::Global;

/// What the lines so far come to.
#[derive(Drop)]
pub struct SoFar {
    /// Where the next line stands.
    pub place: Place,
    /// The clauses, in their places.
    pub draft: Draft,
}

/// No line was read.
pub fn nothing_read(alloc: Global) -> SoFar
    ensures { result ≡ feeding.nothing_read }
{
    SoFar {
        place: start(),
        draft: empty_draft(alloc),
    }
}

/// All lines that wait are taken and read, up to the first faulty one. None is kept.
pub fn read_waiting(alloc: Global, lines: &mut LineFeeder, so_far: SoFar) -> Result<SoFar, DocFault>
    requires { lines.old.is_spent ≡ false }
    ensures read { feeding.IsAnswer (feeding.read_items so_far lines.old.lines.waiting) result }
    ensures emptied { OnOk result (lines.new ≡ feeding.emptied lines.old) }
{
    let mut so_far = so_far;
    while let Some(item) = lines.take_line() {
        so_far = read_on(alloc, so_far, item)?;
    }
    Ok(so_far)
}

/// One line more.
fn read_on(alloc: Global, so_far: SoFar, item: LineItem) -> Result<SoFar, DocFault>
    ensures { feeding.IsAnswer (feeding.read_item so_far item) result }
{
    let SoFar { place, draft } = so_far;
    let told = answered(alloc, place, item)?;
    let place = place_after(place, &told.said);
    let draft = placed_more(alloc, draft, told)?;
    Ok(SoFar { place, draft })
}

/// What a line says where it stands, or what is wrong with it.
fn answered(alloc: Global, place: Place, item: LineItem) -> Result<Told, DocFault>
    ensures { feeding.IsAnswer (body_answer place item.number item.body) result }
{
    read_item(alloc, place, item)
}

/// What a line says where it stands, or what is wrong with it.
fn read_item(alloc: Global, place: Place, item: LineItem) -> Result<Told, DocFault>
    ensures tells { IfOk result (IsTold place item) }
    ensures fails { IfErr result (IsItemFault place item) }
{
    let LineItem { number, body } = item;
    let text = match body {
        LineBody::Text(text) => text,
        LineBody::NotUtf8 => return Err(DocFault::NotUtf8 { line: number }),
        LineBody::TooLong => return Err(DocFault::LineTooLong { line: number }),
    };
    match read_line(alloc, place.kind, place.is_first, &text) {
        Ok(said) => Ok(Told { line: number, said }),
        Err(LineFault::Syntax(kind)) => Err(DocFault::Syntax { line: number, kind }),
        Err(LineFault::NoMemory) => Err(DocFault::NoMemory),
    }
}
