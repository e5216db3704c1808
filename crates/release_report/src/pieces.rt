//! Lines that are made piece by piece: written to a sink without memory, or added to a text.
ghost use Rattle.std.specs.Prelude.{◌≡◌, ◌≤◌, ◌++◌, IfOk};
ghost use Rattle.std.specs.List.{flat_map};
ghost use Rattle.rel_io.specs.Sink.{Writes};
ghost use Rattle.release_report.specs.inner.Piece.{line_of, piece_text};

use itoa::Buffer;
use rel_io::{NoMemory, Sink, SinkFailed};

/// A piece of a line.
#[derive(Clone, Copy)]
pub enum Piece<'a> {
    /// These bytes.
    Text(&'a [u8]),
    /// This number, in decimal.
    Number(u64),
}

/// Writes a piece.
fn write_piece<E: Sink>(piece: &Piece, sink: &mut E) -> Result<(), SinkFailed>
    ensures writes { Writes (piece_text piece.now) (E.state sink.old) result (E.state sink.new) }
    ensures counts { (E.state sink.old).faults ≤ (E.state sink.new).faults }
{
    match piece {
        Piece::Text(text) => sink.write_all(text),
        Piece::Number(number) => {
            let mut buffer = Buffer::new();
            let digits = buffer.format(*number);
            sink.write_all(digits.as_bytes())
        }
    }
}

/// Writes pieces, one behind the other.
fn write_pieces<E: Sink>(pieces: &[Piece], sink: &mut E) -> Result<(), SinkFailed>
    ensures writes { Writes (flat_map piece_text pieces.now) (E.state sink.old) result (E.state sink.new) }
    ensures counts { (E.state sink.old).faults ≤ (E.state sink.new).faults }
{
    for index in 0..pieces.len() {
        write_piece(&pieces[index], sink)?;
    }
    Ok(())
}

/// Writes the line of these pieces, with its end.
pub fn write_line<E: Sink>(pieces: &[Piece], sink: &mut E) -> Result<(), SinkFailed>
    ensures writes { Writes (line_of pieces.now) (E.state sink.old) result (E.state sink.new) }
    ensures counts { (E.state sink.old).faults ≤ (E.state sink.new).faults }
{
    write_pieces(pieces, sink)?;
    sink.write_all(b"\n")
}

/// Adds a piece.
fn add_piece(piece: &Piece, mut text: Vec<u8>) -> Result<Vec<u8>, NoMemory>
    ensures { IfOk result (λ longer. longer.items ≡ text.items ++ piece_text piece.now) }
{
    match piece {
        Piece::Text(bytes) => text.extend_from_slice(bytes)?,
        Piece::Number(number) => {
            let mut buffer = Buffer::new();
            text.extend_from_slice(buffer.format(*number).as_bytes())?
        }
    }
    Ok(text)
}

/// Adds the line of these pieces, with its end.
pub fn add_line(pieces: &[Piece], mut text: Vec<u8>) -> Result<Vec<u8>, NoMemory>
    ensures { IfOk result (λ longer. longer.items ≡ text.items ++ line_of pieces.now) }
{
    for piece in pieces {
        text = add_piece(piece, text)?;
    }
    text.extend_from_slice(b"\n")?;
    Ok(text)
}
