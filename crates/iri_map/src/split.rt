//! A text cut around a separator, and without its beginning or its end.
ghost use Rattle.std.specs.Prelude.{◌≡◌};
ghost use Rattle.std.specs.Option.{option_map};
ghost use Rattle.iri_map.specs.Split as spec;

use memchr::{memchr, memrchr};

/// The parts before and after the first separator.
pub fn split_at_first(separator: u8, text: &[u8]) -> Option<(&[u8], &[u8])>
    ensures { spec.parts_lent result ≡ spec.split_at_first separator text.now }
{
    let at = memchr(separator, text)?;
    Some((&text[..at], &text[at + 1..]))
}

/// The parts before and after the last separator.
pub fn split_at_last(separator: u8, text: &[u8]) -> Option<(&[u8], &[u8])>
    ensures { spec.parts_lent result ≡ spec.split_at_last separator text.now }
{
    let at = memrchr(separator, text)?;
    Some((&text[..at], &text[at + 1..]))
}

/// What stands behind a beginning.
pub fn after_start<'a>(start: &[u8], text: &'a [u8]) -> Option<&'a [u8]>
    ensures { option_map (λ rest. rest.now) result ≡ spec.after_start start.now text.now }
{
    text.strip_prefix(start)
}

/// What stands before an end.
pub fn before_end<'a>(end: &[u8], text: &'a [u8]) -> Option<&'a [u8]>
    ensures { option_map (λ rest. rest.now) result ≡ spec.before_end end.now text.now }
{
    text.strip_suffix(end)
}
