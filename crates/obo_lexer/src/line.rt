//! A line as it is handed on: its number, and its text or what is wrong with it.
ghost use Rattle.std.specs.Prelude.{◌≡◌, map};
ghost use Rattle.obo_lexer.specs.Items.{body_of};
ghost use Rattle.obo_lexer.specs.Lines.{shown, text_of, without_return};

use rel_io::{Bytes, Dup, NoMemory};
use simdutf8::is_utf8;
use std::alloc::Global;

/// The byte that begins the end of a line in some files, and means a space elsewhere.
const RETURN: u8 = b'\r';

/// What a line says.
#[derive(PartialEq, Eq, Drop)]
pub enum LineBody {
    /// The bytes of a line that is UTF-8 and within the limit, with spaces for CRs and without the end.
    Text(Bytes),
    /// The line is not UTF-8, whatever its length.
    NotUtf8,
    /// The line is UTF-8, and has more bytes than the limit.
    TooLong,
}

/// One line of a file.
#[derive(PartialEq, Eq, Drop)]
pub struct LineItem {
    /// Counted from 1.
    pub number: u32,
    /// Its text, or what keeps it from having one.
    pub body: LineBody,
}

impl Dup for LineBody {
    fn copy(&self, alloc: Global) -> Result<LineBody, NoMemory> {
        match self {
            LineBody::Text(text) => Ok(LineBody::Text(text.copy(alloc)?)),
            LineBody::NotUtf8 => Ok(LineBody::NotUtf8),
            LineBody::TooLong => Ok(LineBody::TooLong),
        }
    }
}

impl Dup for LineItem {
    fn copy(&self, alloc: Global) -> Result<LineItem, NoMemory> {
        let number = self.number;
        let body = self.body.copy(alloc)?;
        Ok(LineItem { number, body })
    }
}

/// The body of a line that stands in the file as these bytes, its LF left out.
pub(crate) fn body_of(limit: u32, line: Vec<u8>) -> LineBody
    ensures { result ≡ body_of limit line.items }
{
    let text = text_of(line);
    if !is_utf8(text.as_slice()) {
        return LineBody::NotUtf8;
    }
    if text.len() > limit as usize {
        return LineBody::TooLong;
    }
    LineBody::Text(Bytes::from_vec(text))
}

/// The line without a CR at its end, and with a space for every other CR.
fn text_of(line: Vec<u8>) -> Vec<u8>
    ensures { result.items ≡ text_of line.items }
{
    let mut text = without_return(line);
    show(text.as_mut_slice());
    text
}

/// The line without a CR at its end.
fn without_return(mut line: Vec<u8>) -> Vec<u8>
    ensures { result.items ≡ without_return line.items }
{
    if line.last() == Some(&RETURN) {
        let _ = line.pop();
    }
    line
}

/// Writes a space for every CR.
fn show(text: &mut [u8])
    ensures { text.new ≡ map shown text.old }
{
    for byte in text.iter_mut() {
        *byte = shown(*byte);
    }
}

/// The byte as the text of a line has it.
fn shown(byte: u8) -> u8
    ensures { result ≡ shown byte }
{
    if byte == RETURN { b' ' } else { byte }
}
