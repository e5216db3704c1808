//! Which texts can stand as a name in a line of an OBO file.
ghost use Rattle.std.specs.Prelude.{◌≡◌};
ghost use Rattle.std.specs.Str.{is_utf8};
ghost use Rattle.rel_io.specs.Texts.{is_readable};

/// Whether the text is not empty, UTF-8 and without a carriage return.
#[tactic(auto, unfolding(rel_io::specs::Texts::is_readable))]
pub fn is_readable(text: &[u8]) -> bool
    ensures { result ≡ is_readable text.now }
{
    !text.is_empty() && is_utf8(text) && !text.contains(&b'\r')
}

/// Whether the bytes are UTF-8.
fn is_utf8(text: &[u8]) -> bool
    ensures { result ≡ is_utf8 text.now }
{
    simdutf8::is_utf8(text)
}
