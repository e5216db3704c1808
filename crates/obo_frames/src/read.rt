//! `read_document`: the document of a file, or its first fault.
ghost use Rattle.std.specs.Prelude.{◌^◌, ◌<◌, IfErr, IfOk, length};
ghost use Rattle.obo_frames.specs.Answer.{AnswersIt};
ghost use Rattle.obo_frames.specs.Documents.{AnswersDocument, AnswersFault, IsDocument, IsFaultOfFile};

use crate::{DocFault, Document, DocumentFeeder};
use std::alloc::Global;

/// The document of a file with lines of at most `line_limit` bytes, or its first fault: the least faulty line, and
/// where all lines are read the least line at which a frame without an id begins or a short group does. It takes time in
/// proportion to the bytes, but for the maps of the groups.
pub fn read_document(alloc: Global, bytes: &[u8], line_limit: u32) -> Result<Document, DocFault>
    requires { length bytes.now < 2 ^ 32 }
    ensures document { IfOk result (IsDocument line_limit bytes.now) }
    ensures read { AnswersDocument line_limit bytes.now result }
    ensures fault { IfErr result (IsFaultOfFile line_limit bytes.now) }
    ensures refused { AnswersFault line_limit bytes.now result }
    ensures answer { AnswersIt line_limit bytes.now result }
{
    fed_whole(alloc, bytes, line_limit)
}

/// What the file comes to that is fed as one piece.
fn fed_whole(alloc: Global, bytes: &[u8], line_limit: u32) -> Result<Document, DocFault>
    requires { length bytes.now < 2 ^ 32 }
    ensures { AnswersIt line_limit bytes.now result }
{
    let mut feeder = DocumentFeeder::new(alloc, line_limit)?;
    feeder.feed(bytes)?;
    feeder.finish()
}
