//! The folder in memory over which the examples run.
ghost use Rattle.std.specs.Prelude.{◌≡◌, ◌≤◌, ◌∷◌, [], IfOk, codes};
ghost use Rattle.rel_io.specs.FileList.{files_of};

use rel_io::{Bytes, MemFolder, NoMemory};
use std::alloc::Global;

/// A folder that holds `a.obo` with these bytes and nothing else, gives pieces of a length, and fails at these calls.
pub fn folder_of(
    alloc: Global,
    file: Bytes,
    piece: usize,
    failing: &[u64],
) -> Result<MemFolder, NoMemory>
    requires { 1 ≤ piece }
    ensures holds { IfOk result (λ folder. folder.files ≡ files_of ((codes "a.obo", file) ∷ [])) }
    ensures piece { IfOk result (λ folder. folder.piece ≡ piece) }
    ensures failing { IfOk result (λ folder. folder.failing ≡ failing.now) }
{
    let name = Bytes::from_slice(alloc, b"a.obo")?;
    let failing = Vec::from_slice(alloc, failing)?;
    let mut files = Vec::new(alloc);
    files.push((name, file))?;
    Ok(MemFolder::new(alloc, files, piece, failing))
}
