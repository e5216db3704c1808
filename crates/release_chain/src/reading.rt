//! A file that a step reads.
ghost use Rattle.std.specs.Prelude.{◌≡◌, ◌≤◌, IfOk, ℕ, List, length};
ghost use Rattle.rel_io.specs.FolderState.{Files, NoCountFell};
ghost use Rattle.rel_io.specs.Limits as limits;
ghost use Rattle.release_chain.specs.Ending.{Caused, Ends, SameAt};
ghost use Rattle.release_chain.specs.Part.{reads};

use import_closure::{FileFault, read_file};
use rel_io::{Bytes, Dup, Folder, Limits};
use release_report::Fault;
use std::alloc::Global;

/// The bytes of a file that the words name.
pub fn read_named<F: Folder>(alloc: Global, folder: &mut F, name: &Bytes) -> Result<Bytes, Fault>
    ensures caused { Caused result (F.state folder.old) (F.state folder.new) }
    ensures counts { NoCountFell (F.state folder.old) (F.state folder.new) }
    ensures holds { (F.state folder.new).holds ≡ (F.state folder.old).holds }
    ensures within { IfOk result (λ bytes. length bytes ≤ limits.bytes) }
    ensures ends { (files : Files) → SameAt name.now files (F.state folder.old).holds → Ends (λ (bytes told : List ℕ). bytes ≡ told) (reads files name.now) result (F.state folder.old).holds (F.state folder.new).holds }
{
    let limit = Limits::release().bytes;
    let file = name.copy(alloc)?;
    match read_file(alloc, folder, name, limit) {
        Ok(bytes) => {
            drop(file);
            Ok(bytes)
        }
        Err(FileFault::Missing) => Err(Fault::MissingInput { name: file }),
        Err(FileFault::ReadFault) => Err(Fault::ReadFault { name: file }),
        Err(FileFault::TooManyBytes) => Err(Fault::TooManyBytes { name: file, limit }),
        Err(FileFault::NoMemory) => {
            drop(file);
            Err(Fault::NoMemory)
        }
    }
}
