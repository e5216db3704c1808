//! The bytes of a line: which ones are blanks, make a tag, or end a word.
ghost use Rattle.std.specs.Prelude.{◌≡◌, ◌||◌, ◌∷◌, codes};
ghost use Rattle.std.specs.List.{list_all};
ghost use Rattle.obo_lexer.specs.Tokens.{is_blank};
ghost use Rattle.obo_clause.specs.ReadingLines.{is_tag};
ghost use Rattle.obo_clause.specs.Vocabulary.{is_one_of, is_tag_byte};

/// Whether the byte is a space or a tab.
pub fn is_blank(byte: u8) -> bool
    ensures { result ≡ is_blank byte }
{
    byte == b' ' || byte == b'\t'
}

/// Whether the byte may not stand in the key of a qualifier.
pub fn ends_key(byte: u8) -> bool
    ensures { result ≡ (is_blank byte || is_one_of (10 ∷ 13 ∷ codes "=,{}\"!\\") byte) }
{
    is_blank(byte)
        || matches!(
            byte,
            b'\n' | b'\r' | b'=' | b',' | b'{' | b'}' | b'"' | b'!' | b'\\'
        )
}

/// Whether the byte may stand in a tag.
fn is_tag_byte(byte: u8) -> bool
    ensures { result ≡ is_tag_byte byte }
{
    byte.is_ascii_alphanumeric() || matches!(byte, b'-' | b'_')
}

/// Whether the bytes are a tag.
pub fn is_tag(bytes: &[u8]) -> bool
    ensures { result ≡ is_tag bytes.now }
{
    are_tag_bytes(bytes) && !bytes.is_empty()
}

/// Whether all bytes may stand in a tag.
fn are_tag_bytes(bytes: &[u8]) -> bool
    ensures { result ≡ list_all is_tag_byte bytes.now }
{
    bytes.iter().all(|byte| is_tag_byte(*byte))
}
