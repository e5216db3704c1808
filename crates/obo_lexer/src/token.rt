//! The tokens of a line: blanks, marks, escaped characters and the plain text between them.
ghost use Rattle.std.specs.Prelude.{◌≡◌, ◌+◌, ◌^◌, ◌<◌, ◌≤◌, IfOk, length};
ghost use Rattle.obo_lexer.specs.Tokens.{Covers, HasExtent, IsLongestRun, blank_at, continuation_at, escapes_at, is_blank, is_continuation, is_mark, plain_at};

use rel_io::{Bytes, Dup, NoMemory};
use std::alloc::Global;

/// What a token is.
#[derive(Clone, Copy, Debug, PartialEq, Eq)]
pub enum TokenKind {
    /// A longest run of spaces and tabs.
    Blank,
    /// A longest run of what no other kind takes. A backslash at the line's end is plain.
    Plain,
    /// A backslash and the character behind it.
    Escaped,
    /// One of `"`, `:`, `,`, `[`, `]`, `{`, `}`, `!` and `=`.
    Mark,
}

/// The bytes of a line from one place up to another, both counted from 0.
#[derive(Clone, Copy, PartialEq, Eq)]
pub struct Token {
    /// The place of its first byte.
    pub from: u32,
    /// The place behind its last byte.
    pub to: u32,
    /// What it is.
    pub kind: TokenKind,
}

impl Dup for TokenKind {
    fn copy(&self, _alloc: Global) -> Result<TokenKind, NoMemory> {
        Ok(*self)
    }
}

impl Dup for Token {
    fn copy(&self, _alloc: Global) -> Result<Token, NoMemory> {
        Ok(*self)
    }
}

/// The tokens of a line as it is handed on: UTF-8, without LF and CR.
pub fn tokens(alloc: Global, line: &Bytes) -> Result<Vec<Token>, NoMemory>
    requires { length line.now < 2 ^ 32 }
    ensures { IfOk result (λ tokens. Covers line.now 0 tokens.items) }
{
    let bytes = line.as_slice();
    let mut tokens = Vec::new(alloc);
    let mut place = 0;
    while place < bytes.len() {
        let token = token_at(bytes, place);
        place = token.to as usize;
        tokens.push(token)?;
    }
    Ok(tokens)
}

/// The token that begins at the place.
fn token_at(line: &[u8], place: usize) -> Token
    requires within { place < length line.now }
    requires short { length line.now < 2 ^ 32 }
    ensures from { result.from ≡ place }
    ensures extent { HasExtent result.kind line.now place result.to }
    ensures progress { place < result.to }
    ensures bound { result.to ≤ length line.now }
{
    let (kind, to) = if is_blank(line[place]) {
        (TokenKind::Blank, blank_end(line, place))
    } else if is_mark(line[place]) {
        (TokenKind::Mark, place + 1)
    } else if escapes_at(line, place) {
        (TokenKind::Escaped, character_end(line, place + 2))
    } else {
        (TokenKind::Plain, plain_end(line, place))
    };
    Token {
        from: place as u32,
        to: to as u32,
        kind,
    }
}

/// Where the run of blanks from the place on ends.
fn blank_end(line: &[u8], place: usize) -> usize
    requires { place ≤ length line.now }
    ensures { IsLongestRun (blank_at line.now) line.now place result }
{
    let mut end = place;
    while end < line.len() && is_blank(line[end]) {
        end += 1;
    }
    end
}

/// Where the run of plain bytes from the place on ends.
fn plain_end(line: &[u8], place: usize) -> usize
    requires { place ≤ length line.now }
    ensures { IsLongestRun (plain_at line.now) line.now place result }
{
    let mut end = place;
    while end < line.len() && plain_at(line, end) {
        end += 1;
    }
    end
}

/// Where a character ends of which the first byte stands directly before the place.
fn character_end(line: &[u8], place: usize) -> usize
    requires { place ≤ length line.now }
    ensures { IsLongestRun (continuation_at line.now) line.now place result }
{
    let mut end = place;
    while end < line.len() && is_continuation(line[end]) {
        end += 1;
    }
    end
}

/// Whether the byte is plain where it stands.
fn plain_at(line: &[u8], place: usize) -> bool
    requires { place < length line.now }
    ensures { result ≡ plain_at line.now place }
{
    !(is_blank(line[place]) || is_mark(line[place]) || escapes_at(line, place))
}

/// Whether a backslash stands at the place, and something behind it.
fn escapes_at(line: &[u8], place: usize) -> bool
    requires { place < length line.now }
    ensures { result ≡ escapes_at line.now place }
{
    line[place] == b'\\' && place + 1 < line.len()
}

/// Whether the byte is a space or a tab.
fn is_blank(byte: u8) -> bool
    ensures { result ≡ is_blank byte }
{
    byte == b' ' || byte == b'\t'
}

/// Whether the byte is a mark by itself.
fn is_mark(byte: u8) -> bool
    ensures { result ≡ is_mark byte }
{
    matches!(
        byte,
        b'"' | b':' | b',' | b'[' | b']' | b'{' | b'}' | b'!' | b'='
    )
}

/// Whether the byte goes on with a character in UTF-8.
fn is_continuation(byte: u8) -> bool
    ensures { result ≡ is_continuation byte }
{
    (0x80..0xC0).contains(&byte)
}
