//! What the clauses of all lines come to.
ghost use Rattle.std.specs.Prelude.{◌≡◌, None};
ghost use Rattle.obo_frames.specs.Documents.{frame_fault};
ghost use Rattle.obo_frames.specs.Feeding.{IsAnswer, draft_answer, draft_fault};
ghost use Rattle.obo_frames.specs.Soundness.{IsSound};

use crate::groups::short_line;
use crate::standing::{Draft, lost_at_end};
use crate::{DocFault, Document};
use std::alloc::Global;

/// The document of these clauses, or the first fault of their frames.
pub fn judged(alloc: Global, draft: Draft) -> Result<Document, DocFault>
    requires { draft_fault draft ≡ None → IsSound draft.placed }
    ensures { IsAnswer (draft_answer draft) result }
{
    let Draft {
        standing,
        placed,
        lost,
    } = draft;
    let lost = lost_at_end(&standing, lost);
    drop(standing);
    let short = short_line(alloc, placed.as_slice())?;
    match frame_fault(lost, short) {
        Some(fault) => Err(fault),
        None => {
            let mut placed = placed.into_vec();
            placed.shrink_to_fit();
            Ok(Document::of(placed))
        }
    }
}

/// Of a frame without an id and a short group, at these lines, the one whose line is least.
fn frame_fault(lost: Option<u32>, short: Option<u32>) -> Option<DocFault>
    ensures { result ≡ frame_fault lost short }
{
    match (lost, short) {
        (None, None) => None,
        (None, Some(line)) => Some(DocFault::ShortGroup { line }),
        (Some(line), None) => Some(DocFault::NoId { line }),
        (Some(frame), Some(group)) => {
            if group < frame {
                Some(DocFault::ShortGroup { line: group })
            } else {
                Some(DocFault::NoId { line: frame })
            }
        }
    }
}
