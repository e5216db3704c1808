//! Lines and tokens on small texts, with answers worked out by hand from the rules.
ghost use Rattle.std.specs.Prelude.{◌^◌, ◌<◌, length};

use crate::{bytes_of, is_copied, push, wrong_in};
use obo_lexer::{LineBody, LineFeeder, LineItem, tokens};
use rel_io::{Bytes, NoMemory};
use std::alloc::Global;
use std::test::Fail;

/// A file, and its lines where a line has four bytes at most, however the file is cut.
const FILES: &str = r#" => lines
| => lines|1:
@0D@ => lines|1:
@0D@| => lines|1:
a => lines|1:a
a| => lines|1:a
a@0D@ => lines|1:a
a|b => lines|1:a|2:b
a||b| => lines|1:a|2:|3:b
a@0D@|b@0D@| => lines|1:a|2:b
a@0D@b| => lines|1:a b
a@0D@@0D@| => lines|1:a@20@
@EF@@BB@@BF@ => lines
@EF@@BB@@BF@| => lines|1:
@EF@@BB@@BF@a|b => lines|1:a|2:b
@EF@@BB@@BF@@EF@@BB@@BF@a => lines|1:@EF@@BB@@BF@a
a|@EF@@BB@@BF@b => lines|1:a|2:@EF@@BB@@BF@b
@EF@@BB@|a => lines|1 NotUtf8|2:a
@C3@@A9@| => lines|1:@C3@@A9@
a@C3@|b => lines|1 NotUtf8|2:b
@C0@@AF@ => lines|1 NotUtf8
@ED@@A0@@80@ => lines|1 NotUtf8
abcd| => lines|1:abcd
abcd@0D@| => lines|1:abcd
abcde| => lines|1 TooLong
abcd@0D@@0D@| => lines|1 TooLong
@EF@@BB@@BF@abcd|abcde => lines|1:abcd|2 TooLong
abcdef@C3@| => lines|1 NotUtf8"#;

#[test]
fn files_are_lines(rt: HostRuntime) -> Result<(), Fail> {
    let wrong = wrong_in(rt.alloc(), FILES, lines_of)?;
    assert_eq!(rt; wrong.as_str(), "");
    Ok(())
}

/// The lines of a file, which is fed whole, and in pieces of one byte, of two bytes, and so on.
fn lines_of(alloc: Global, file: &str) -> Result<Vec<u8>, NoMemory> {
    let file = bytes_of(alloc, file)?;
    let whole = lines_in_pieces(alloc, file.as_slice(), file.len().max(1))?;
    for size in 1..file.len() {
        let cut = lines_in_pieces(alloc, file.as_slice(), size)?;
        if cut.as_slice() != whole.as_slice() {
            return Ok(cut);
        }
    }
    Ok(whole)
}

/// The lines of a small file that is fed in pieces of so many bytes, the last one maybe shorter.
fn lines_in_pieces(alloc: Global, file: &[u8], size: usize) -> Result<Vec<u8>, NoMemory>
    requires sized { 0 < size }
{
    let mut feeder = LineFeeder::new(alloc, 4)?;
    if file.len() < 100 {
        let mut left = file;
        while left.len() > size {
            let (piece, later) = left.split_at(size);
            feeder.feed(piece)?;
            left = later;
        }
        feeder.feed(left)?;
    }
    feeder.finish()?;
    shown(alloc, feeder, file.len())
}

/// A file, and its lines where a line has 1,048,576 bytes at most.
const LONG_FILES: &str = "\
|@1048576*a@ => lines|1:|2:@1048576*a@
@1048577*a@|a => lines|1 TooLong|2:a";

#[test]
fn long_files_are_lines(rt: HostRuntime) -> Result<(), Fail> {
    let wrong = wrong_in(rt.alloc(), LONG_FILES, long_lines_of)?;
    assert_eq!(rt; wrong.as_str(), "");
    Ok(())
}

/// The lines of a file that is fed whole.
fn long_lines_of(alloc: Global, file: &str) -> Result<Vec<u8>, NoMemory> {
    let file = bytes_of(alloc, file)?;
    let mut feeder = LineFeeder::new(alloc, 1_048_576)?;
    if file.len() < 2_000_000 {
        feeder.feed(file.as_slice())?;
    }
    feeder.finish()?;
    shown(alloc, feeder, 2)
}

/// The lines that wait, which are at most one more than so many.
fn shown(alloc: Global, mut feeder: LineFeeder, most: usize) -> Result<Vec<u8>, NoMemory> {
    let mut text = Vec::from_slice(alloc, b"lines")?;
    for _ in 0..=most {
        if let Some(line) = feeder.take_line() {
            push_line(alloc, &mut text, &line)?;
        }
    }
    Ok(text)
}

/// Appends the number of a line, and what it is.
fn push_line(alloc: Global, text: &mut Vec<u8>, line: &LineItem) -> Result<(), NoMemory> {
    if is_copied(alloc, line)? {
        push(text, format!(in alloc; "\n{}", line.number)?.as_bytes())?;
    }
    match &line.body {
        LineBody::Text(bytes) => {
            push(text, b":")?;
            push(text, bytes.as_slice())
        }
        LineBody::NotUtf8 => push(text, b" NotUtf8"),
        LineBody::TooLong => push(text, b" TooLong"),
    }
}

/// A line, and its tokens: of each its kind and the places at which it begins and ends.
const LINES: &str = r#" => tokens
a: "b" => tokens Plain 0-1 Mark 1-2 Blank 2-3 Mark 3-4 Plain 4-5 Mark 5-6
 @09@, => tokens Blank 0-2 Mark 2-3
a\@C3@@A9@ b\ => tokens Plain 0-1 Escaped 1-4 Blank 4-5 Plain 5-7
\\\ => tokens Escaped 0-2 Plain 2-3
[]{}!=\,: => tokens Mark 0-1 Mark 1-2 Mark 2-3 Mark 3-4 Mark 4-5 Mark 5-6 Escaped 6-8 Mark 8-9"#;

#[test]
fn lines_are_tokens(rt: HostRuntime) -> Result<(), Fail> {
    let wrong = wrong_in(rt.alloc(), LINES, tokens_of)?;
    assert_eq!(rt; wrong.as_str(), "");
    Ok(())
}

/// The tokens of a line.
fn tokens_of(alloc: Global, line: &str) -> Result<Vec<u8>, NoMemory> {
    let line = Bytes::from_vec(bytes_of(alloc, line)?);
    let mut text = Vec::from_slice(alloc, b"tokens")?;
    if line.as_slice().len() > 100 {
        return Ok(text);
    }
    for token in &tokens(alloc, &line)? {
        if is_copied(alloc, token)? && is_copied(alloc, &token.kind)? {
            let shown = format!(in alloc; " {:?} {}-{}", token.kind, token.from, token.to)?;
            push(&mut text, shown.as_bytes())?;
        }
    }
    Ok(text)
}
