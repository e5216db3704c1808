//! The columns of a line, from left to right.
ghost use Rattle.std.specs.Prelude.{◌≡◌, ◌≤◌, length};
ghost use Rattle.std.specs.List.{prefix_len};
ghost use Rattle.std.specs.Str.{is_utf8};
ghost use Rattle.obo_lexer.specs.Tokens.{is_blank};
ghost use Rattle.text_columns.specs.Columns.{IsNextColumn, is_plain};
ghost use Rattle.text_columns.specs.inner.Columns.{behind_blanks, is_done, is_part};

/// What opens a comment.
const COMMENT: u8 = b'#';

/// Whether a line is UTF-8 and within the limit.
pub fn is_plain(line: &[u8], limit: u32) -> bool
    ensures { result ≡ is_plain limit line.now }
{
    is_utf8(line) && !(line.len() > limit as usize)
}

/// Whether the bytes are UTF-8.
fn is_utf8(bytes: &[u8]) -> bool
    ensures { result ≡ is_utf8 bytes.now }
{
    simdutf8::is_utf8(bytes)
}

/// The first column of a text that stands at a line's beginning or behind a blank, and what stands behind the column.
pub fn next_column(text: &[u8]) -> Option<(&[u8], &[u8])>
    ensures { IsNextColumn text.now result }
{
    let text = behind_blanks(text);
    if is_done(text) {
        return None;
    }
    Some(text.split_at(column_end(text)))
}

/// What stands behind the blanks with which a text begins.
fn behind_blanks(text: &[u8]) -> &[u8]
    ensures { result.now ≡ behind_blanks text.now }
{
    &text[blanks_end(text)..]
}

/// Where the blanks end with which a text begins.
fn blanks_end(text: &[u8]) -> usize
    ensures run { result ≡ prefix_len is_blank text.now }
    ensures within { result ≤ length text.now }
{
    let mut end = 0;
    while end < text.len() && is_blank(text[end]) {
        end += 1;
    }
    end
}

/// Where the column ends with which a text begins.
fn column_end(text: &[u8]) -> usize
    ensures run { result ≡ prefix_len is_part text.now }
    ensures within { result ≤ length text.now }
{
    let mut end = 0;
    while end < text.len() && !is_blank(text[end]) {
        end += 1;
    }
    end
}

/// Whether nothing is left, or a comment.
fn is_done(text: &[u8]) -> bool
    ensures { result ≡ is_done text.now }
{
    match text {
        [] => true,
        [first, ..] => *first == COMMENT,
    }
}

/// Whether the byte stands between columns.
fn is_blank(byte: u8) -> bool
    ensures { result ≡ is_blank byte }
{
    byte == b' ' || byte == b'\t'
}
