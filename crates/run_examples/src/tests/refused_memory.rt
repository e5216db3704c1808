//! A run whose second read fails, over a file that the first read brought whole: the read fault where memory is ample, and
//! else want of memory. With each growth of memory refused in turn, `checks/refuse_allocations.sh` counts how often that is
//! how it ends: each id is kept before the second read, so a body that first reads the whole file would be told apart.
ghost use Rattle.std.specs.Prelude.{◌≤◌, ◌≡◌, IfOk};

use super::words::words_of;
use document_examples::push;
use hash_key::HashKey;
use rel_io::{Bytes, MemFolder, MemSink, NoMemory};
use release_chain::{Ended, release};
use std::alloc::Global;
use std::test::Fail;

/// A hundred frames, each an id alone.
fn frames(alloc: Global) -> Result<Vec<u8>, NoMemory> {
    let mut text = Vec::new(alloc);
    for number in 1..=100_u32 {
        let frame = format!(in alloc; "[Term]\nid: EX:{number:07}\n")?;
        push(&mut text, frame.as_bytes())?;
    }
    Ok(text)
}

/// The folder of that file, whose third call fails, the second read: the first gives all of the file.
fn folder(alloc: Global) -> Result<MemFolder, NoMemory> {
    let name = Bytes::from_slice(alloc, b"edit.obo")?;
    let content = Bytes::from_vec(frames(alloc)?);
    let mut files = Vec::new(alloc);
    files.push((name, content))?;
    let failing = Vec::from_slice(alloc, &[2])?;
    Ok(MemFolder::new(alloc, files, 65536, failing))
}

/// How a run ended.
fn ending(ended: &Ended) -> &'static str {
    match ended.status {
        3 => "a failed read",
        4 => "out of memory",
        _ => "another ending",
    }
}

/// The read fault is named, and nothing is written.
#[test]
fn a_second_read_fails(rt: HostRuntime) -> Result<(), Fail> {
    let alloc = rt.alloc();
    let mut folder = folder(alloc)?;
    let mut out = MemSink::new(alloc, 500, Vec::new(alloc))?;
    let mut err = MemSink::new(alloc, 500, Vec::new(alloc))?;
    let words = words_of(alloc, "merge --input edit.obo convert --output r.obo")?;
    let ended = release(
        alloc,
        HashKey::new(7),
        &words,
        &mut folder,
        &mut out,
        &mut err,
    );
    assert_eq!(rt; ending(&ended), "a failed read");
    drop(ended);
    assert_eq!(rt; err.bytes(), b"robot: edit.obo: read fault\n".as_slice());
    assert!(rt; out.bytes().is_empty() && folder.held(b"r.obo").is_none());
    Ok(())
}
