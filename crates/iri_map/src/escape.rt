//! Escapes: bytes appended to an IRI with those escaped that may not stand in it, and read back.
ghost use Rattle.std.specs.Prelude.{◌≡◌, ◌++◌, IfOk, OnOk};
ghost use Rattle.percent_encoding.specs.Percent as percent;
ghost use Rattle.iri_map.specs.Escape.{escaped_part, escaped_url};

use percent_encoding::{
    AsciiSet, CONTROLS, NON_ALPHANUMERIC, ascii_set, percent_decode, percent_encode,
};
use rel_io::NoMemory;
use std::alloc::Global;

/// What is escaped in a part of an IRI: all but letters, digits and these five.
const PART: AsciiSet = ascii_set!(
    NON_ALPHANUMERIC
        .remove(b'-')
        .remove(b'.')
        .remove(b'_')
        .remove(b'~')
        .remove(b'/')
);

/// What is escaped in a URL, which keeps its `%`.
const URL: AsciiSet = ascii_set!(
    CONTROLS
        .add(b' ')
        .add(b'"')
        .add(b'<')
        .add(b'>')
        .add(b'\\')
        .add(b'^')
        .add(b'`')
        .add(b'{')
        .add(b'|')
        .add(b'}')
);

/// Appends a name as a part of an IRI.
pub fn push_part(iri: &mut Vec<u8>, name: &[u8]) -> Result<(), NoMemory>
    ensures { OnOk result (iri.new.items ≡ iri.old.items ++ escaped_part name.now) }
{
    push_escaped(iri, name, PART)
}

/// Appends a URL as an IRI.
pub fn push_url(iri: &mut Vec<u8>, url: &[u8]) -> Result<(), NoMemory>
    ensures { OnOk result (iri.new.items ≡ iri.old.items ++ escaped_url url.now) }
{
    push_escaped(iri, url, URL)
}

/// Appends bytes, with those of the set and those outside ASCII escaped.
fn push_escaped(iri: &mut Vec<u8>, bytes: &[u8], set: AsciiSet) -> Result<(), NoMemory>
    ensures { OnOk result (iri.new.items ≡ iri.old.items ++ percent.percent_encode set bytes.now) }
{
    for piece in percent_encode(bytes, set) {
        iri.extend_from_slice(piece.as_bytes())?;
    }
    Ok(())
}

/// Appends the bytes that a part of an IRI stands for.
pub fn push_decoded(name: &mut Vec<u8>, part: &[u8]) -> Result<(), NoMemory>
    ensures { OnOk result (name.new.items ≡ name.old.items ++ percent.percent_decode part.now) }
{
    percent_decode(part).append_to(name)?;
    Ok(())
}

/// The bytes that a part of an IRI stands for.
pub fn decoded(alloc: Global, part: &[u8]) -> Result<Vec<u8>, NoMemory>
    ensures { IfOk result (λ name. name.items ≡ percent.percent_decode part.now) }
{
    let mut name = Vec::new(alloc);
    push_decoded(&mut name, part)?;
    Ok(name)
}
