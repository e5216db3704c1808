//! A file, fed to a feeder of documents piece by piece: its bytes are never held whole.
ghost use Rattle.std.specs.Prelude.{◌≡◌, ◌^◌, ◌<◌, ◌≤◌, IfSome, IsTrue, length};
ghost use Rattle.rel_io.specs.FolderState.{NoCountFell};
ghost use Rattle.import_closure.specs.inner.Feeding.{FeedsFile, FeedsOpen, FeedsPiece};

use crate::FileFault;
use crate::file::empty_buffer;
use obo_frames::DocumentFeeder;
use rel_io::{Bytes, Folder, Got, Opened};
use std::alloc::Global;

/// What was fed of a file.
#[derive(Drop)]
pub struct Fed {
    /// The feeder.
    pub feeder: DocumentFeeder,
    /// How many bytes.
    pub size: u64,
}

/// Feeds a file in pieces to its end or to the first byte past the limit.
pub fn feed_file<F: Folder>(
    alloc: Global,
    folder: &mut F,
    name: &Bytes,
    limit: u64,
    line_limit: u32,
) -> Result<Fed, FileFault>
    requires few { limit < 2 ^ 32 }
    ensures feeds { FeedsFile line_limit name.now limit (F.state folder.old) result (F.state folder.new) }
    ensures holds { (F.state folder.new).holds ≡ (F.state folder.old).holds }
    ensures counts { NoCountFell (F.state folder.old) (F.state folder.new) }
{
    match folder.open_file(name.as_slice()) {
        Opened::Ready => feed_open(alloc, folder, limit, line_limit),
        Opened::Missing => Err(FileFault::Missing),
        Opened::Failed => Err(FileFault::ReadFault),
    }
}

/// Feeds the open file, of which none was read yet.
fn feed_open<F: Folder>(
    alloc: Global,
    folder: &mut F,
    limit: u64,
    line_limit: u32,
) -> Result<Fed, FileFault>
    requires few { limit < 2 ^ 32 }
    requires open { IsTrue (F.state folder.old).is_open }
    requires at_start { IfSome (F.state folder.old).holds (λ _. (F.state folder.old).opened.place ≡ 0) }
    ensures feeds { FeedsOpen line_limit limit (F.state folder.old) result (F.state folder.new) }
    ensures holds { (F.state folder.new).holds ≡ (F.state folder.old).holds }
    ensures counts { NoCountFell (F.state folder.old) (F.state folder.new) }
{
    let feeder = DocumentFeeder::new(alloc, line_limit)?;
    let mut fed = Fed { feeder, size: 0 };
    let mut buffer = empty_buffer(alloc)?;
    let piece = buffer.as_mut_slice();
    'pieces: loop {
        if !feed_piece(folder, piece, &mut fed, limit)? {
            return Ok(fed);
        }
    }
}

/// Feeds the next piece of the open file, and says whether there was one.
fn feed_piece<F: Folder>(
    folder: &mut F,
    piece: &mut [u8],
    fed: &mut Fed,
    limit: u64,
) -> Result<bool, FileFault>
    requires few { limit < 2 ^ 32 }
    requires open { IsTrue (F.state folder.old).is_open }
    requires room { 0 < length piece.old }
    requires within { fed.old.size ≤ limit }
    requires counted { fed.old.feeder.fed ≡ fed.old.size }
    ensures feeds { FeedsPiece limit (F.state folder.old) fed.old result (F.state folder.new) fed.new }
    ensures holds { (F.state folder.new).holds ≡ (F.state folder.old).holds }
    ensures counts { NoCountFell (F.state folder.old) (F.state folder.new) }
{
    match folder.read(piece) {
        Got::Bytes(count) => {
            if count as u64 > limit - fed.size {
                return Err(FileFault::TooManyBytes);
            }
            fed.feeder.feed(&piece[..count])?;
            fed.size += count as u64;
            Ok(true)
        }
        Got::AtEnd => Ok(false),
        Got::Failed => Err(FileFault::ReadFault),
    }
}
