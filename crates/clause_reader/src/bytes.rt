//! The bytes of a line: what stands before and behind blanks and the first colon.
ghost use Rattle.std.specs.Prelude.{◌≡◌, ◌≤◌, ◌||◌, codes, length};
ghost use Rattle.std.specs.List.{prefix_len};
ghost use Rattle.std.specs.Str.{bytes_eq};
ghost use Rattle.obo_lexer.specs.Tokens.{is_blank};
ghost use Rattle.obo_clause.specs.Reading.{behind, trim_end};
ghost use Rattle.clause_reader.specs.inner.Results.{parts_lent};
ghost use Rattle.obo_clause.specs.ReadingLines.{at_colon, is_before_colon, is_line_comment};
ghost use Rattle.obo_clause.specs.Vocabulary.{is_one_of};

use obo_clause::is_blank;

/// Whether the bytes are those of the word.
pub fn is_word(bytes: &[u8], word: &[u8]) -> bool
    ensures { result ≡ bytes_eq bytes.now word.now }
{
    bytes == word
}

/// Whether the byte ends a word where no backslash stands before it.
pub fn ends_word(byte: u8) -> bool
    ensures { result ≡ (is_blank byte || is_one_of (codes "{![\"") byte) }
{
    is_blank(byte) || matches!(byte, b'{' | b'!' | b'[' | b'"')
}

/// What stands behind the blanks with which the bytes begin.
pub fn behind_blank_bytes(bytes: &[u8]) -> &[u8]
    ensures { result.now ≡ behind is_blank bytes.now }
{
    &bytes[blanks_end(bytes)..]
}

/// Where the blanks end with which the bytes begin.
fn blanks_end(bytes: &[u8]) -> usize
    ensures run { result ≡ prefix_len is_blank bytes.now }
    ensures within { result ≤ length bytes.now }
{
    let mut end = 0;
    while end < bytes.len() && is_blank(bytes[end]) {
        end += 1;
    }
    end
}

/// The bytes without the blanks at their end.
pub fn without_last_blanks(bytes: &[u8]) -> &[u8]
    ensures { result.now ≡ trim_end is_blank bytes.now }
{
    let mut end = bytes.len();
    while end > 0 && is_blank(bytes[end - 1]) {
        end -= 1;
    }
    &bytes[..end]
}

/// The parts before and behind the first colon.
#[tactic(auto, unfolding(obo_clause::specs::ReadingLines::at_colon))]
pub fn split_at_colon(bytes: &[u8]) -> Option<(&[u8], &[u8])>
    ensures { parts_lent result ≡ at_colon bytes.now }
{
    let (before, rest) = bytes.split_at(colon_place(bytes));
    match rest {
        [] => None,
        [_, behind @ ..] => Some((before, behind)),
    }
}

/// Where the first colon stands; without one, where the bytes end.
fn colon_place(bytes: &[u8]) -> usize
    ensures run { result ≡ prefix_len is_before_colon bytes.now }
    ensures within { result ≤ length bytes.now }
{
    let mut place = 0;
    while place < bytes.len() && bytes[place] != b':' {
        place += 1;
    }
    place
}

/// Whether nothing is left, or a comment.
pub fn is_line_comment(bytes: &[u8]) -> bool
    ensures { result ≡ is_line_comment bytes.now }
{
    match bytes {
        [] => true,
        [first, ..] => *first == b'!',
    }
}
