//! The lines of a text, one after the other.
ghost use Rattle.std.specs.Prelude.{◌≡◌, ◌<◌, length};
ghost use Rattle.obo_lexer.specs.Lines.{without_return};
ghost use Rattle.text_columns.specs.Lines.{CutsLine};

use memchr::memchr;

/// The byte that ends a line.
const LINE_FEED: u8 = b'\n';

/// The byte that may stand before the end of a line.
const RETURN: u8 = b'\r';

/// The first line, without its LF, and what stands behind it.
pub fn cut_line(bytes: &[u8]) -> (&[u8], &[u8])
    requires { 0 < length bytes.now }
    ensures cut { CutsLine bytes.now result.0.now result.1.now }
    ensures shorter { length result.1.now < length bytes.now }
{
    match memchr(LINE_FEED, bytes) {
        Some(at) => (&bytes[..at], &bytes[at + 1..]),
        None => (bytes, &bytes[..0]),
    }
}

/// The line without one CR at its end.
pub fn without_return(line: &[u8]) -> &[u8]
    ensures { result.now ≡ without_return line.now }
{
    if line.last() == Some(&RETURN) {
        &line[..line.len() - 1]
    } else {
        line
    }
}
