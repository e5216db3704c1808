//! The marks that the value of a clause is made of, and runs of them.
ghost use Rattle.std.specs.Prelude.{◌≡◌, ◌+◌, ◌<◌, ◌≤◌, ◌∷◌, IfOk, drop, length};
ghost use Rattle.std.specs.List.{prefix_len};
ghost use Rattle.std.specs.Option.{option_copied};
ghost use Rattle.obo_clause.specs.Marks as spec;
ghost use Rattle.clause_reader.specs.inner.Classes.{in_class};
ghost use Rattle.obo_clause.specs.Reading.{behind, behind_blanks, front, is_sign, text_read, trim_end};
ghost use Rattle.obo_clause.specs.Vocabulary.{is_space};

use crate::bytes::ends_word;
use obo_clause::{MarkedByte, ends_key, is_blank};
use rel_io::{Bytes, NoMemory};
use std::alloc::Global;

/// The marks that stand together in one part of a clause.
#[derive(Clone, Copy, PartialEq, Eq)]
pub enum Class {
    /// Spaces and tabs.
    Space,
    /// What a word is made of.
    Word,
    /// What stands between quotes.
    Quoted,
    /// What an entry of an xref list is made of.
    Entry,
    /// What the key of a qualifier is made of.
    Key,
    /// What the value of a qualifier is made of where it has no quotes.
    Unquoted,
}

/// The marks of a text.
pub fn marks_of(alloc: Global, bytes: &[u8]) -> Result<Vec<MarkedByte>, NoMemory>
    ensures { IfOk result (λ marks. marks.items ≡ spec.marks_of bytes.now) }
{
    let mut marks = Vec::with_capacity(alloc, bytes.len())?;
    let mut place = 0;
    while place < bytes.len() {
        let (mark, end) = mark_at(bytes, place);
        marks.push(mark)?;
        place = end;
    }
    Ok(marks)
}

/// The mark at the place, and where it ends.
fn mark_at(bytes: &[u8], place: usize) -> (MarkedByte, usize)
    requires { place < length bytes.now }
    ensures first { spec.marks_of (drop place bytes.now) ≡ result.0 ∷ spec.marks_of (drop result.1 bytes.now) }
    ensures goes { place < result.1 }
    ensures within { result.1 ≤ length bytes.now }
{
    if bytes[place] == b'\\' && place + 1 < bytes.len() {
        (escaped(bytes[place + 1]), place + 2)
    } else {
        (bare(bytes[place]), place + 1)
    }
}

/// A byte that stands by itself.
fn bare(byte: u8) -> MarkedByte
    ensures { result ≡ spec.bare byte }
{
    MarkedByte {
        byte,
        is_escaped: false,
    }
}

/// A byte behind a backslash.
fn escaped(byte: u8) -> MarkedByte
    ensures { result ≡ spec.escaped byte }
{
    let byte = match byte {
        b'n' => b'\n',
        b't' => b'\t',
        b'W' => b' ',
        _ => byte,
    };
    MarkedByte {
        byte,
        is_escaped: true,
    }
}

/// What marks are read as.
pub fn text_of(alloc: Global, marks: &[MarkedByte]) -> Result<Bytes, NoMemory>
    ensures { IfOk result (λ text. text ≡ spec.read_as marks.now) }
{
    let bytes: Vec<u8> = marks.iter().map(|mark| mark.byte).collect(alloc)?;
    Ok(Bytes::from_vec(bytes))
}

/// What the marks of a part that may be absent are read as.
pub fn text_if_any(alloc: Global, marks: Option<&[MarkedByte]>) -> Result<Option<Bytes>, NoMemory>
    ensures { IfOk result (λ text. text ≡ text_read (option_copied marks.entry)) }
{
    match marks {
        None => Ok(None),
        Some(marks) => Ok(Some(text_of(alloc, marks)?)),
    }
}

/// Whether the mark is this byte, standing by itself.
pub fn is_sign(byte: u8, mark: MarkedByte) -> bool
    ensures { result ≡ is_sign byte mark }
{
    !mark.is_escaped && mark.byte == byte
}

/// Whether the mark is of the class.
fn is_in(class: Class, mark: MarkedByte) -> bool
    ensures { result ≡ in_class class mark }
{
    match class {
        Class::Space => !mark.is_escaped && is_blank(mark.byte),
        Class::Word => mark.is_escaped || !ends_word(mark.byte),
        Class::Quoted => mark.is_escaped || mark.byte != b'"',
        Class::Entry => mark.is_escaped || !matches!(mark.byte, b',' | b']' | b'"'),
        Class::Key => !mark.is_escaped && !ends_key(mark.byte),
        Class::Unquoted => mark.is_escaped || !matches!(mark.byte, b',' | b'}' | b'{' | b'"'),
    }
}

/// Where the run of the class ends with which the marks begin.
fn run_end(class: Class, marks: &[MarkedByte]) -> usize
    ensures run { result ≡ prefix_len (in_class class) marks.now }
    ensures within { result ≤ length marks.now }
{
    let mut end = 0;
    while end < marks.len() && is_in(class, marks[end]) {
        end += 1;
    }
    end
}

/// The run of the class with which the marks begin, and the rest.
pub fn split_run(class: Class, marks: &[MarkedByte]) -> (&[MarkedByte], &[MarkedByte])
    ensures run { result.0.now ≡ front (in_class class) marks.now }
    ensures rest { result.1.now ≡ behind (in_class class) marks.now }
{
    marks.split_at(run_end(class, marks))
}

/// What stands behind the blanks with which the marks begin.
pub fn behind_blanks(marks: &[MarkedByte]) -> &[MarkedByte]
    ensures { result.now ≡ behind_blanks marks.now }
{
    split_run(Class::Space, marks).1
}

/// The marks without the blanks at their end.
pub fn trim_end(marks: &[MarkedByte]) -> &[MarkedByte]
    ensures { result.now ≡ trim_end is_space marks.now }
{
    let mut end = marks.len();
    while end > 0 && is_in(Class::Space, marks[end - 1]) {
        end -= 1;
    }
    &marks[..end]
}
