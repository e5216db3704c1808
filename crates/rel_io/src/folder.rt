//! The outside that holds files: what is asked of it, and what each answer means.
ghost use Rattle.std.specs.Prelude.{◌≡◌, ◌<◌, ◌≤◌, IsTrue, false, length};
ghost use Rattle.rel_io.specs.Folder.{Opens, Puts, Reads};
ghost use Rattle.rel_io.specs.FolderState.{FolderState, NoCountFell};

use crate::NoMemory;

/// What opening a file answers.
#[derive(Clone, Copy, Debug, PartialEq, Eq)]
pub enum Opened {
    /// The file is open at its first byte.
    Ready,
    /// There is no file of that name.
    Missing,
    /// The file could not be opened.
    Failed,
}

/// What reading from the open file answers.
#[derive(Clone, Copy, Debug, PartialEq, Eq)]
pub enum Got {
    /// So many bytes, at least one, now stand at the front of the buffer.
    Bytes(usize),
    /// All bytes of the file were read before.
    AtEnd,
    /// The read failed.
    Failed,
}

/// Why a file was not put.
#[derive(Clone, Copy, Debug, PartialEq, Eq)]
pub enum PutFault {
    /// The write failed, and nothing is known of the file of that name.
    Failed,
    /// No memory was left, and the folder holds what it held.
    NoMemory,
}

impl From<NoMemory> for PutFault {
    ghost use Rattle.std.specs.Prelude.{◌≡◌};
    ghost use Rattle.rel_io.specs.declared.folder.PutFault.TheVariants as fault;

    ghost from_gives = { λ _ made. made ≡ fault.NoMemory };

    fn from(_: NoMemory) -> PutFault {
        PutFault::NoMemory
    }
}

/// A folder of files, each with a name, of which one may be open for reading.
///
/// A folder may tell what it holds, as one in memory does, or not, as a real one; what is said of
/// content is said of a folder that tells it.
pub trait Folder {
    /// What the folder holds, its counts of faults, and which file is open.
    ghost state: { Self → FolderState };

    /// Opens the file of this name at its first byte. A file that was open before is closed.
    fn open_file(&mut self, name: &[u8]) -> Opened
        ensures opens { Opens name.now (state self.old) result (state self.new) }
        ensures holds { (state self.new).holds ≡ (state self.old).holds }
        ensures counts { NoCountFell (state self.old) (state self.new) };

    /// Reads the next bytes of the open file to the front of a buffer, as many as the folder likes.
    fn read(&mut self, into: &mut [u8]) -> Got
        requires open { IsTrue (state self.old).is_open }
        requires room { 0 < length into.old }
        ensures reads { Reads (state self.old) result into.new (state self.new) }
        ensures holds { (state self.new).holds ≡ (state self.old).holds }
        ensures counts { NoCountFell (state self.old) (state self.new) };

    /// Puts a file of this name and these bytes in the place of the one that is there, if any.
    fn put(&mut self, name: &[u8], bytes: &[u8]) -> Result<(), PutFault>
        ensures puts { Puts name.now bytes.now (state self.old) result (state self.new) }
        ensures closed { (state self.new).is_open ≡ false }
        ensures counts { NoCountFell (state self.old) (state self.new) };
}
