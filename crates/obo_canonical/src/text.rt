//! `canonical`: the canonical text of a document.
ghost use Rattle.std.specs.Prelude.{◌≡◌, IfOk, map};
ghost use Rattle.obo_frames.specs.Framed.{unlined};
ghost use Rattle.obo_canonical.specs.Laws.{canonical};

use crate::norm;
use hash_key::HashKey;
use obo_frames::Document;
use obo_text::canonical_text;
use rel_io::{Bytes, NoMemory};
use std::alloc::Global;

/// The text of the normal form of the document. It takes the time of sorts.
pub fn canonical(alloc: Global, hash_key: HashKey, document: &Document) -> Result<Bytes, NoMemory>
    ensures exact { IfOk result (λ text. text ≡ canonical (map unlined document.now)) }
{
    // The length tells what every document keeps.
    let _count = document.len();
    let normal = norm(alloc, hash_key, document)?;
    let text = canonical_text(alloc, &normal)?;
    Ok(Bytes::from_vec(text))
}
