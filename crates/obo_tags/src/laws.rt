//! What the table of the tags amounts to.
ghost use Rattle.obo_tags.specs.Laws.{RawIfForeign};

use crate::FrameKind;

/// Each tag of a frame kind has a shape of its own there: the value behind a tag is taken as it stands where the tag is
/// foreign, and only there.
pub fn raw_is_foreign(kind: FrameKind, tag: &[u8])
    ensures { RawIfForeign kind tag.now }
{}
