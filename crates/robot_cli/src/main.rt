//! `robot`: the program. It takes the words of the command line, makes the real folder and the real
//! sinks, calls `release`, and ends with its status.
#![tactic(auto)]

ghost use Rattle.std.specs.Prelude.{◌≢◌, map};
ghost use Rattle.std.specs.String.{string_bytes};
ghost use Rattle.release_chain.specs.Release.{outside};
ghost use Rattle.robot_cli.specs.Process.{EndsWith};

use hash_key::HashKey;
use rel_io::{Folder, Sink};
use rel_os::{DiskFolder, StdSink};
use release_chain::release;
use std::alloc::Global;
use std::env::{self, Env};
use std::io::{self, ErrorKind};
use std::process::ExitCode;
use std::random::RandomSource;

/// The status of words that are refused.
const BAD_WORDS: u8 = 2;

/// The status of want of memory.
const NO_MEMORY: u8 = 4;

fn main(rt: HostRuntime) -> ExitCode {
    match words(&rt) {
        Ok(words) => {
            let mut folder = DiskFolder::new(&rt);
            let mut out = StdSink::output(&rt);
            let mut err = StdSink::error(&rt);
            ExitCode::from(run(
                rt.alloc(),
                hash_key(&rt),
                &words,
                &mut folder,
                &mut out,
                &mut err,
            ))
        }
        Err(error) => ExitCode::from(status_without_words(error)),
    }
}

/// Does what the words ask for, and gives the status with which the process ends.
fn run<F: Folder, O: Sink, E: Sink>(
    alloc: Global,
    hash_key: HashKey,
    words: &Vec<String>,
    folder: &mut F,
    out: &mut O,
    err: &mut E,
) -> u8
    ensures { EndsWith (map string_bytes words.now.items) (outside (F.state folder.old) (O.state out.old) (E.state err.old)) result (outside (F.state folder.new) (O.state out.new) (E.state err.new)) }
{
    let ended = release(alloc, hash_key, words, folder, out, err);
    let status = ended.status;
    drop(ended);
    status
}

/// The key of this run, from a number that the system draws. Where the system gives none, the key is a fixed one: the
/// answers are the same, and only files that were made against that key take longer.
fn hash_key<R: RandomSource>(rt: &R) -> HashKey {
    let mut drawn = [0; 8];
    match rt.fill_bytes(&mut drawn) {
        Ok(()) => HashKey::new(u64::from_le_bytes(drawn)),
        Err(_) => HashKey::new(0),
    }
}

/// The words behind the program's name.
fn words<R: Env + AllocGlobal>(rt: &R) -> io::Result<Vec<String>> {
    let words = env::args(rt)?.skip(1).collect(rt.alloc())?;
    Ok(words)
}

/// How the program ends where it has no words: some word is not UTF-8, or memory ran out.
fn status_without_words(error: io::Error) -> u8
    ensures { result ≢ 0 }
{
    match error.kind() {
        ErrorKind::OutOfMemory => NO_MEMORY,
        _ => BAD_WORDS,
    }
}
