//! The text of a fault: one line, by the table in `specs/FaultText`. It is written without memory, so that it is told that
//! memory ran out, too.
ghost use Rattle.std.specs.Prelude.{◌≡◌, ◌≤◌, ◌∷◌, [], codes, decimal};
ghost use Rattle.rel_io.specs.Sink.{Writes};
ghost use Rattle.release_report.specs.FaultText.{at_line, fault_text, own_line, syntax_text, word_text};

use crate::Fault;
use crate::pieces::{Piece, write_line};
use chain_words::WordKind;
use obo_clause::SyntaxKind;
use rel_io::{Bytes, Iri, Sink, SinkFailed};

/// What is wrong with an argument.
fn word_text(kind: WordKind) -> &'static [u8]
    ensures { result.now ≡ word_text kind }
{
    match kind {
        WordKind::TooMany => b"too many",
        WordKind::NoCommand => b"no command",
        WordKind::MissingOption => b"missing option",
        WordKind::NoFormat => b"no format",
        WordKind::NotHere => b"not here",
        WordKind::Repeated => b"repeated",
        WordKind::NoValue => b"no value",
        WordKind::BadValue => b"bad value",
        WordKind::UnknownWord => b"unknown word",
        WordKind::OutputIsInput => b"output is input",
        WordKind::OutputTwice => b"output twice",
    }
}

/// What is wrong with a line.
fn syntax_text(kind: SyntaxKind) -> &'static [u8]
    ensures { result.now ≡ syntax_text kind }
{
    match kind {
        SyntaxKind::NoColon => b"no colon",
        SyntaxKind::BadTag => b"bad tag",
        SyntaxKind::BadFrame => b"bad frame",
        SyntaxKind::NoValue => b"no value",
        SyntaxKind::NoQuote => b"no quote",
        SyntaxKind::OpenQuote => b"open quote",
        SyntaxKind::XrefList => b"xref list",
        SyntaxKind::BadBool => b"bad bool",
        SyntaxKind::Trailing => b"trailing",
    }
}

/// Writes a line that says this alone.
fn write_plain<E: Sink>(what: &[u8], err: &mut E) -> Result<(), SinkFailed>
    ensures writes { Writes (own_line (what.now ∷ [])) (E.state err.old) result (E.state err.new) }
    ensures counts { (E.state err.old).faults ≤ (E.state err.new).faults }
{
    write_line(&[Piece::Text(b"robot: "), Piece::Text(what)], err)
}

/// Writes what is wrong with a file.
fn write_named<'a, E: Sink>(name: &'a Bytes, what: &'a [u8], err: &mut E) -> Result<(), SinkFailed>
    ensures writes { Writes (own_line (name.now ∷ what.now ∷ [])) (E.state err.old) result (E.state err.new) }
    ensures counts { (E.state err.old).faults ≤ (E.state err.new).faults }
{
    write_line(
        &[
            Piece::Text(b"robot: "),
            Piece::Text(name.as_slice()),
            Piece::Text(what),
        ],
        err,
    )
}

/// Writes what is wrong with a line.
fn write_at<'a, E: Sink>(
    file: &'a Bytes,
    line: u32,
    what: &'a [u8],
    err: &mut E,
) -> Result<(), SinkFailed>
    ensures writes { Writes (own_line (at_line file.now line (what.now ∷ []))) (E.state err.old) result (E.state err.new) }
    ensures counts { (E.state err.old).faults ≤ (E.state err.new).faults }
{
    write_line(
        &[
            Piece::Text(b"robot: "),
            Piece::Text(file.as_slice()),
            Piece::Text(b":"),
            Piece::Number(line as u64),
            Piece::Text(b": "),
            Piece::Text(what),
        ],
        err,
    )
}

/// Writes what is wrong with a line, and one thing more.
fn write_told_at<'a, E: Sink>(
    file: &'a Bytes,
    line: u32,
    what: &'a [u8],
    told: &'a [u8],
    err: &mut E,
) -> Result<(), SinkFailed>
    ensures writes { Writes (own_line (at_line file.now line (what.now ∷ told.now ∷ []))) (E.state err.old) result (E.state err.new) }
    ensures counts { (E.state err.old).faults ≤ (E.state err.new).faults }
{
    write_line(
        &[
            Piece::Text(b"robot: "),
            Piece::Text(file.as_slice()),
            Piece::Text(b":"),
            Piece::Number(line as u64),
            Piece::Text(b": "),
            Piece::Text(what),
            Piece::Text(told),
        ],
        err,
    )
}

/// Writes that there are more things than a limit.
fn write_more_than<E: Sink>(limit: u64, what: &[u8], err: &mut E) -> Result<(), SinkFailed>
    ensures writes { Writes (own_line (codes "more than " ∷ decimal limit ∷ what.now ∷ [])) (E.state err.old) result (E.state err.new) }
    ensures counts { (E.state err.old).faults ≤ (E.state err.new).faults }
{
    write_line(
        &[
            Piece::Text(b"robot: "),
            Piece::Text(b"more than "),
            Piece::Number(limit),
            Piece::Text(what),
        ],
        err,
    )
}

/// Writes what is wrong with an argument.
fn write_word<E: Sink>(index: u32, what: &[u8], err: &mut E) -> Result<(), SinkFailed>
    ensures writes { Writes (own_line (codes "word " ∷ decimal index ∷ codes ": " ∷ what.now ∷ [])) (E.state err.old) result (E.state err.new) }
    ensures counts { (E.state err.old).faults ≤ (E.state err.new).faults }
{
    write_line(
        &[
            Piece::Text(b"robot: "),
            Piece::Text(b"word "),
            Piece::Number(index as u64),
            Piece::Text(b": "),
            Piece::Text(what),
        ],
        err,
    )
}

/// Writes that there are more bytes than a limit.
fn write_too_many_bytes<E: Sink>(name: &Bytes, limit: u64, err: &mut E) -> Result<(), SinkFailed>
    ensures writes { Writes (own_line (name.now ∷ codes ": more than " ∷ decimal limit ∷ codes " bytes" ∷ [])) (E.state err.old) result (E.state err.new) }
    ensures counts { (E.state err.old).faults ≤ (E.state err.new).faults }
{
    write_line(
        &[
            Piece::Text(b"robot: "),
            Piece::Text(name.as_slice()),
            Piece::Text(b": more than "),
            Piece::Number(limit),
            Piece::Text(b" bytes"),
        ],
        err,
    )
}

/// Writes that a class has no members.
fn write_unsatisfiable<'a, E: Sink>(
    class: &'a Iri,
    file: &'a Bytes,
    line: u32,
    err: &mut E,
) -> Result<(), SinkFailed>
    ensures writes { Writes (own_line (at_line file.now line (codes "unsatisfiable <" ∷ class.now ∷ codes ">" ∷ []))) (E.state err.old) result (E.state err.new) }
    ensures counts { (E.state err.old).faults ≤ (E.state err.new).faults }
{
    write_line(
        &[
            Piece::Text(b"robot: "),
            Piece::Text(file.as_slice()),
            Piece::Text(b":"),
            Piece::Number(line as u64),
            Piece::Text(b": "),
            Piece::Text(b"unsatisfiable <"),
            Piece::Text(class.as_slice()),
            Piece::Text(b">"),
        ],
        err,
    )
}

/// Writes the text of a fault, in pieces and without memory: the whole of it, or a part where the sink fails.
pub fn write_fault<E: Sink>(fault: &Fault, err: &mut E) -> Result<(), SinkFailed>
    ensures writes { Writes (fault_text fault.now) (E.state err.old) result (E.state err.new) }
    ensures counts { (E.state err.old).faults ≤ (E.state err.new).faults }
{
    match fault {
        Fault::BadWord { index, kind } => write_word(*index, word_text(*kind), err),
        Fault::MissingInput { name } => write_named(name, b": missing", err),
        Fault::MissingImport { file, line, value } => write_told_at(
            file,
            *line,
            b"missing import ",
            value.as_slice(),
            err,
        ),
        Fault::TooManyFiles { limit } => write_more_than(*limit as u64, b" files", err),
        Fault::TooManyBytes { name, limit } => write_too_many_bytes(name, *limit, err),
        Fault::NotUtf8 { file, line } => write_at(file, *line, b"not UTF-8", err),
        Fault::LineTooLong { file, line } => write_at(file, *line, b"line too long", err),
        Fault::Syntax { file, line, kind } => write_told_at(
            file,
            *line,
            b"syntax: ",
            syntax_text(*kind),
            err,
        ),
        Fault::NoId { file, line } => write_at(file, *line, b"no id", err),
        Fault::ShortGroup { file, line } => write_at(file, *line, b"short group", err),
        Fault::CatalogLine { file, line } => write_at(file, *line, b"catalog line", err),
        Fault::SeedLine { file, line } => write_at(file, *line, b"seed line", err),
        Fault::EmptySeed { file } => write_named(file, b": empty seed", err),
        Fault::TooManyFacts { limit } => write_more_than(*limit, b" facts", err),
        Fault::Unsatisfiable { class, file, line } => write_unsatisfiable(class, file, *line, err),
        Fault::TwoValues {
            iri,
            tag,
            first,
            second,
            first_file,
            first_line,
            second_file,
            second_line,
        } => write_line(
            &[
                Piece::Text(b"robot: "),
                Piece::Text(b"<"),
                Piece::Text(iri.as_slice()),
                Piece::Text(b">: "),
                Piece::Text(tag.as_slice()),
                Piece::Text(b" has "),
                Piece::Text(first.as_slice()),
                Piece::Text(b" ("),
                Piece::Text(first_file.as_slice()),
                Piece::Text(b":"),
                Piece::Number(*first_line as u64),
                Piece::Text(b") and "),
                Piece::Text(second.as_slice()),
                Piece::Text(b" ("),
                Piece::Text(second_file.as_slice()),
                Piece::Text(b":"),
                Piece::Number(*second_line as u64),
                Piece::Text(b")"),
            ],
            err,
        ),
        Fault::ReadFault { name } => write_named(name, b": read fault", err),
        Fault::WriteFault { name } => write_named(name, b": write fault", err),
        Fault::SinkFault => write_plain(b"report: write fault", err),
        Fault::NoMemory => write_plain(b"out of memory", err),
    }
}
