//! The words of a run of the program.
ghost use Rattle.std.specs.Prelude.{◌≡◌, ◌≤◌, map, length, string_bytes, List, drop, IfOk, IfErr};
ghost use Rattle.chain_words.specs.Fault.{IsBadWord};
ghost use Rattle.chain_words.specs.inner.Answers.{Answers};
ghost use Rattle.chain_words.specs.Read.{all_words, at_merge, begun_by, chain, generated, only_size, scan};

use crate::draft::{Draft, Part, at_end, turn};
use crate::fault::bad;
use crate::given::nothing;
use crate::number::size_of;
use crate::table::{CommandWord, command_of};
use crate::{Command, WordFault, WordKind};
use rel_io::Items;
use std::alloc::Global;

/// The most words that are read.
const MOST_WORDS: usize = 1024;

/// Before the second word of a chain.
fn at_merge(alloc: Global) -> Draft
    ensures { result ≡ at_merge }
{
    Draft {
        part: Part::Merge,
        at: 0,
        given: nothing(alloc),
        outputs: Items::from_vec(Vec::new(alloc)),
        asked: None,
    }
}

/// Reads a chain from its second word on.
fn scanned(alloc: Global, words: &[String]) -> Result<Command, WordFault>
    requires { length words.now ≤ 1024 }
    ensures { Answers (scan at_merge 1 (drop 1 (map string_bytes words.now))) result }
{
    let mut draft = at_merge(alloc);
    for index in 1..words.len() {
        draft = turn(alloc, draft, index as u32, words[index].as_bytes())?;
    }
    at_end(alloc, draft)
}

/// Reads the words behind `generate`.
fn generated(words: &[String]) -> Result<Command, WordFault>
    ensures { Answers (generated (drop 1 (map string_bytes words.now))) result }
{
    if words.len() < 2 {
        return Err(bad(0, WordKind::MissingOption));
    }
    match size_of(words[1].as_bytes()) {
        None => Err(bad(1, WordKind::BadValue)),
        Some(size) => {
            if words.len() > 2 {
                return Err(bad(2, WordKind::UnknownWord));
            }
            Ok(Command::Generate(size))
        }
    }
}

/// Reads the words behind the first, which stands for this command or for none.
fn begun_by(
    alloc: Global,
    command: Option<CommandWord>,
    words: &[String],
) -> Result<Command, WordFault>
    requires { length words.now ≤ 1024 }
    ensures { Answers (begun_by command (drop 1 (map string_bytes words.now))) result }
{
    match command {
        Some(CommandWord::Merge) => scanned(alloc, words),
        Some(CommandWord::Generate) => generated(words),
        _ => Err(bad(0, WordKind::NoCommand)),
    }
}

/// Reads words that are not too many.
fn all_words(alloc: Global, words: &[String]) -> Result<Command, WordFault>
    requires { length words.now ≤ 1024 }
    ensures { Answers (all_words (map string_bytes words.now)) result }
{
    if words.is_empty() {
        return Err(bad(0, WordKind::NoCommand));
    }
    begun_by(alloc, command_of(words[0].as_bytes()), words)
}

/// The command that the words behind the program's name ask for, or the bad word that comes first.
pub fn read_words(alloc: Global, words: &Vec<String>) -> Result<Command, WordFault>
    ensures command { IfOk result (λ command. chain (map string_bytes words.now.items) ≡ Ok command) }
    ensures bad_word { IfErr result (IsBadWord (chain (map string_bytes words.now.items))) }
{
    if words.len() > MOST_WORDS {
        return Err(bad(MOST_WORDS as u32, WordKind::TooMany));
    }
    all_words(alloc, words.as_slice())
}
