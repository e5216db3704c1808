//! Texts and words that a line can hold.
ghost use Rattle.std.specs.Prelude.{◌≡◌};
ghost use Rattle.std.specs.Str.{is_utf8};
ghost use Rattle.obo_notes.specs.Context.{is_text};
ghost use Rattle.obo_notes.specs.Parts.{is_label, is_word};

use rel_io::Bytes;

/// Whether a line can hold the text between quotes.
#[tactic(auto, unfolding(crate::specs::Context::is_text))]
pub fn is_text(text: &[u8]) -> bool
    ensures { result ≡ is_text text.now }
{
    is_utf8(text) && !text.contains(&b'\r')
}

/// Whether a line can hold the text as a word.
pub fn is_word(word: &[u8]) -> bool
    ensures { result ≡ is_word word.now }
{
    !word.is_empty() && is_text(word)
}

/// Whether there is no label, or a line can hold it.
pub fn is_label(label: &Option<Bytes>) -> bool
    ensures { result ≡ is_label label.now }
{
    match label {
        Some(text) => is_text(text.as_slice()),
        None => true,
    }
}

/// Whether the bytes are UTF-8.
pub fn is_utf8(text: &[u8]) -> bool
    ensures { result ≡ is_utf8 text.now }
{
    simdutf8::is_utf8(text)
}
