//! A file, read whole.
ghost use Rattle.std.specs.Prelude.{◌≡◌, ◌<◌, ◌≤◌, IfOk, IfSome, IsTrue, length, vec_len};
ghost use Rattle.rel_io.specs.FolderState.{NoCountFell};
ghost use Rattle.import_closure.specs.ReadFile.{ReadsFile, ReadsOpen, ReadsPiece};
ghost use Rattle.import_closure.specs.declared.file.FileFault.TheVariants.{NoMemory};

use rel_io::{Bytes, Folder, Got, Opened};
use std::alloc::{AllocError, Global};

/// How many bytes each read is given room for.
const PIECE: usize = 65_536;

/// Why a file was not read.
#[derive(Clone, Copy, Debug, PartialEq, Eq)]
pub enum FileFault {
    /// There is no file of that name.
    Missing,
    /// It could not be opened or read.
    ReadFault,
    /// It has more bytes than the limit.
    TooManyBytes,
    /// Memory ran out.
    NoMemory,
}

impl From<AllocError> for FileFault {
    ghost from_gives = { λ _ fault. fault ≡ NoMemory };

    fn from(_: AllocError) -> FileFault {
        FileFault::NoMemory
    }
}

impl From<rel_io::NoMemory> for FileFault {
    ghost from_gives = { λ _ fault. fault ≡ NoMemory };

    fn from(_: rel_io::NoMemory) -> FileFault {
        FileFault::NoMemory
    }
}

/// The bytes of a file, which are read in pieces to its end or to the first byte past the limit.
pub fn read_file<F: Folder>(
    alloc: Global,
    folder: &mut F,
    name: &Bytes,
    limit: u64,
) -> Result<Bytes, FileFault>
    ensures reads { ReadsFile name.now limit (F.state folder.old) result (F.state folder.new) }
    ensures holds { (F.state folder.new).holds ≡ (F.state folder.old).holds }
    ensures counts { NoCountFell (F.state folder.old) (F.state folder.new) }
{
    match folder.open_file(name.as_slice()) {
        Opened::Ready => read_open(alloc, folder, limit),
        Opened::Missing => Err(FileFault::Missing),
        Opened::Failed => Err(FileFault::ReadFault),
    }
}

/// The bytes of the open file, of which none was read yet.
fn read_open<F: Folder>(alloc: Global, folder: &mut F, limit: u64) -> Result<Bytes, FileFault>
    requires open { IsTrue (F.state folder.old).is_open }
    requires at_start { IfSome (F.state folder.old).holds (λ _. (F.state folder.old).opened.place ≡ 0) }
    ensures reads { ReadsOpen limit (F.state folder.old) result (F.state folder.new) }
    ensures holds { (F.state folder.new).holds ≡ (F.state folder.old).holds }
    ensures counts { NoCountFell (F.state folder.old) (F.state folder.new) }
{
    let mut bytes = Vec::new(alloc);
    let mut buffer = empty_buffer(alloc)?;
    let piece = buffer.as_mut_slice();
    'pieces: loop {
        if !read_piece(folder, piece, &mut bytes, limit)? {
            return Ok(Bytes::from_vec(bytes));
        }
    }
}

/// Reads the next piece of the open file behind the bytes read before, and says whether there was one.
fn read_piece<F: Folder>(
    folder: &mut F,
    piece: &mut [u8],
    bytes: &mut Vec<u8>,
    limit: u64,
) -> Result<bool, FileFault>
    requires open { IsTrue (F.state folder.old).is_open }
    requires room { 0 < length piece.old }
    requires within { length bytes.old.items ≤ limit }
    ensures reads { ReadsPiece limit (F.state folder.old) bytes.old.items result (F.state folder.new) bytes.new.items }
    ensures holds { (F.state folder.new).holds ≡ (F.state folder.old).holds }
    ensures counts { NoCountFell (F.state folder.old) (F.state folder.new) }
{
    match folder.read(piece) {
        Got::Bytes(count) => {
            if count as u64 > limit - bytes.len() as u64 {
                return Err(FileFault::TooManyBytes);
            }
            bytes.extend_from_slice(&piece[..count])?;
            Ok(true)
        }
        Got::AtEnd => Ok(false),
        Got::Failed => Err(FileFault::ReadFault),
    }
}

/// A buffer for one piece.
pub fn empty_buffer(alloc: Global) -> Result<Vec<u8>, AllocError>
    ensures { IfOk result (λ buffer. vec_len buffer ≡ PIECE) }
{
    vec![in alloc; 0u8; PIECE]
}
