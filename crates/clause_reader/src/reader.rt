//! `read_line`: the one answer to a line.
ghost use Rattle.std.specs.Prelude.{IfErr, IfOk};
ghost use Rattle.clause_reader.specs.Answers.{AnswersWhatFails, AnswersWhatIsSaid, IsFaultOfLine};
ghost use Rattle.clause_reader.specs.inner.Results.{FindsBytes, Gives};
ghost use Rattle.obo_clause.specs.ReadingLines as read;
ghost use Rattle.obo_clause.specs.Spelling.{Says};

use crate::bytes::{behind_blank_bytes, is_line_comment, split_at_colon, without_last_blanks};
use crate::values::read_shape;
use obo_clause::{Clause, Line, LineFault, QualifiedValue, SyntaxKind, is_tag, shape_at};
use obo_tags::FrameKind;
use rel_io::Bytes;
use std::alloc::Global;

/// What the line says in a frame of the kind, or the first thing that is wrong with it. `first` says that the frame has
/// no clause before this line. It takes time in proportion to the line.
pub fn read_line(
    alloc: Global,
    kind: FrameKind,
    first: bool,
    line: &Bytes,
) -> Result<Line, LineFault>
    ensures says { IfOk result (Says kind first line.now) }
    ensures read { AnswersWhatIsSaid kind first line.now result }
    ensures fails { IfErr result (IsFaultOfLine kind first line.now) }
    ensures refused { AnswersWhatFails kind first line.now result }
{
    answer_to(alloc, kind, first, line.as_slice())
}

/// The answer to a line.
#[tactic(auto, unfolding(obo_clause::specs::ReadingLines::answer_to))]
fn answer_to(alloc: Global, kind: FrameKind, first: bool, line: &[u8]) -> Result<Line, LineFault>
    ensures { Gives (read.answer_to kind first line.now) result }
{
    let line = behind_blank_bytes(line);
    match line {
        [] => Ok(Line::Blank),
        [b'!', ..] => Ok(Line::Blank),
        [b'[', rest @ ..] => read_frame(rest),
        _ => read_clause(alloc, kind, first, line),
    }
}

/// A frame line from behind its `[` on.
#[tactic(auto, unfolding(obo_clause::specs::ReadingLines::read_frame))]
fn read_frame(bytes: &[u8]) -> Result<Line, LineFault>
    ensures { Gives (read.read_frame bytes.now) result }
{
    match frame_name(bytes) {
        Some((kind, rest)) if is_line_comment(behind_blank_bytes(rest)) => Ok(Line::Frame(kind)),
        _ => Err(LineFault::Syntax(SyntaxKind::BadFrame)),
    }
}

/// The frame kind that is named, from behind the `[` on, and what stands behind the `]`.
#[tactic(auto, unfolding(obo_clause::specs::ReadingLines::frame_name))]
fn frame_name(bytes: &[u8]) -> Option<(FrameKind, &[u8])>
    ensures { FindsBytes (read.frame_name bytes.now) result }
{
    match bytes.strip_prefix(b"Term]") {
        None => later_name(bytes),
        Some(rest) => Some((FrameKind::Term, rest)),
    }
}

/// The frame kind that is named, where it is Typedef or Instance.
fn later_name(bytes: &[u8]) -> Option<(FrameKind, &[u8])>
    ensures { FindsBytes (read.later_name bytes.now) result }
{
    match bytes.strip_prefix(b"Typedef]") {
        None => instance_name(bytes),
        Some(rest) => Some((FrameKind::Typedef, rest)),
    }
}

/// The frame kind that is named, where it is Instance.
fn instance_name(bytes: &[u8]) -> Option<(FrameKind, &[u8])>
    ensures { FindsBytes (read.instance_name bytes.now) result }
{
    match bytes.strip_prefix(b"Instance]") {
        None => None,
        Some(rest) => Some((FrameKind::Instance, rest)),
    }
}

/// A clause line without the blanks at its beginning.
#[tactic(auto, unfolding(obo_clause::specs::ReadingLines::read_clause))]
fn read_clause(alloc: Global, kind: FrameKind, first: bool, bytes: &[u8]) -> Result<Line, LineFault>
    ensures { Gives (read.read_clause kind first bytes.now) result }
{
    let Some((before, rest)) = split_at_colon(bytes) else {
        return Err(LineFault::Syntax(SyntaxKind::NoColon));
    };
    let tag = without_last_blanks(before);
    if !is_tag(tag) {
        return Err(LineFault::Syntax(SyntaxKind::BadTag));
    }
    read_tagged(alloc, kind, first, tag, rest)
}

/// The clause of a tag and what stands behind its colon.
#[tactic(auto, unfolding(obo_clause::specs::ReadingLines::read_tagged))]
fn read_tagged(
    alloc: Global,
    kind: FrameKind,
    first: bool,
    tag: &[u8],
    bytes: &[u8],
) -> Result<Line, LineFault>
    ensures { Gives (read.read_tagged kind first tag.now bytes.now) result }
{
    let shape = shape_at(kind, first, tag);
    let tag = Bytes::from_slice(alloc, tag)?;
    match read_shape(alloc, shape, bytes) {
        Ok(QualifiedValue { value, qualifiers }) => Ok(Line::Content(Clause {
            tag,
            value,
            qualifiers,
        })),
        Err(fault) => {
            drop(tag);
            Err(fault)
        }
    }
}
