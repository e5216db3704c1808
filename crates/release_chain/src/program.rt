//! `release`: all that the program does.
ghost use Rattle.std.specs.Prelude.{◌≡◌, ◌≢◌, ◌↔◌, IsSome, map};
ghost use Rattle.std.specs.String.{string_bytes};
ghost use Rattle.release_chain.specs.Release.{Complete, Counts, ErrEnds, NothingElse, OutEnds, Released, Stops, WordsRefused, outside};
ghost use Rattle.release_chain.specs.Run.{asked};
ghost use Rattle.release_chain.specs.Status.{status_of_ending};
ghost use Rattle.release_chain.specs.inner.Finish.{Asks, CommandEnds, Finishes, IsSound, WordsEnd};

use crate::Ended;
use crate::chain::run_chain;
use crate::generated::run_generated;
use crate::work::Work;
use chain_words::{Command, outputs_stand_apart, read_words, sizes_are_bounded};
use hash_key::HashKey;
use rel_io::{Folder, Sink};
use release_report::{Fault, report_text, write_fault};
use std::alloc::Global;

/// What the words ask for.
fn ask(alloc: Global, words: &Vec<String>) -> Result<Command, Fault>
    ensures { Asks (asked (map string_bytes words.now.items)) result }
{
    match read_words(alloc, words)? {
        Command::Generate(size) => {
            sizes_are_bounded(words, size);
            Ok(Command::Generate(size))
        }
        Command::Run(chain) => {
            outputs_stand_apart(words, &chain);
            Ok(Command::Run(chain))
        }
    }
}

/// Runs what the words ask for.
fn run_words<F: Folder>(
    alloc: Global,
    hash_key: HashKey,
    words: &Vec<String>,
    folder: &mut F,
) -> Result<Work, Fault>
    ensures { WordsEnd (asked (map string_bytes words.now.items)) (F.state folder.old) result (F.state folder.new) }
{
    let command = ask(alloc, words)?;
    run_command(alloc, hash_key, &command, folder)
}

/// Runs a command.
fn run_command<F: Folder>(
    alloc: Global,
    hash_key: HashKey,
    command: &Command,
    folder: &mut F,
) -> Result<Work, Fault>
    requires { IsSound command.now }
    ensures { CommandEnds command.now (F.state folder.old) result (F.state folder.new) }
{
    match command {
        Command::Generate(size) => run_generated(alloc, hash_key, *size),
        Command::Run(chain) => run_chain(alloc, hash_key, folder, chain),
    }
}

/// Runs what the words ask for, and reports it.
fn finish<F: Folder, O: Sink>(
    alloc: Global,
    hash_key: HashKey,
    words: &Vec<String>,
    folder: &mut F,
    out: &mut O,
) -> Result<(), Fault>
    ensures { Finishes (asked (map string_bytes words.now.items)) (F.state folder.old) (O.state out.old) result (F.state folder.new) (O.state out.new) }
{
    let work = run_words(alloc, hash_key, words, folder)?;
    let entries = work.entries.into_vec();
    let report = report_text(alloc, &entries)?;
    match out.write_all(report.as_slice()) {
        Ok(()) => Ok(()),
        Err(_) => Err(Fault::SinkFault),
    }
}

/// Does all that the program does, and says how it ended. `words` are those behind the program's name. The tables of the run
/// hash with `hash_key`, which no clause names: no answer goes by it.
///
/// If it ends with status 0, each file that it wrote is the text of axioms that follow from the merged axioms, and every
/// finite model of them agrees, on the same domain, over the names common to all seeds before it, with a model of the merged
/// axioms (`released`); and nothing else in the folder changed (`nothing_else`). Every other ending names its cause, with
/// the count that rose in this call (`counts`) and the place where the run stopped (`stops`). Where nothing outside failed
/// and memory was there, it ends with status 0 or with the one refusal of the run (`complete`), and wrong words are refused
/// in any case (`words`). The report goes to `out` where all is done (`out`), and the text of a fault to `err` (`err`). What
/// is said of files is said over a folder that tells what it holds.
pub fn release<F: Folder, O: Sink, E: Sink>(
    alloc: Global,
    hash_key: HashKey,
    words: &Vec<String>,
    folder: &mut F,
    out: &mut O,
    err: &mut E,
) -> Ended
    ensures released { Released (map string_bytes words.now.items) (outside (F.state folder.old) (O.state out.old) (E.state err.old)) result.fault (outside (F.state folder.new) (O.state out.new) (E.state err.new)) }
    ensures nothing_else { NothingElse (map string_bytes words.now.items) (outside (F.state folder.old) (O.state out.old) (E.state err.old)) result.fault (outside (F.state folder.new) (O.state out.new) (E.state err.new)) }

    ensures counts { Counts result.fault (outside (F.state folder.old) (O.state out.old) (E.state err.old)) (outside (F.state folder.new) (O.state out.new) (E.state err.new)) }
    ensures stops { Stops (map string_bytes words.now.items) (outside (F.state folder.old) (O.state out.old) (E.state err.old)) result.fault (outside (F.state folder.new) (O.state out.new) (E.state err.new)) }

    ensures complete { Complete (map string_bytes words.now.items) (outside (F.state folder.old) (O.state out.old) (E.state err.old)) result.fault (outside (F.state folder.new) (O.state out.new) (E.state err.new)) }
    ensures words { WordsRefused (map string_bytes words.now.items) (outside (F.state folder.old) (O.state out.old) (E.state err.old)) result.fault (outside (F.state folder.new) (O.state out.new) (E.state err.new)) }

    ensures status { result.status ≡ status_of_ending result.fault }
    ensures faulty { IsSome result.fault ↔ (result.status ≢ 0) }
    ensures out { OutEnds (map string_bytes words.now.items) (outside (F.state folder.old) (O.state out.old) (E.state err.old)) result.fault (outside (F.state folder.new) (O.state out.new) (E.state err.new)) }
    ensures err { ErrEnds (outside (F.state folder.old) (O.state out.old) (E.state err.old)) result.fault (outside (F.state folder.new) (O.state out.new) (E.state err.new)) }
{
    match finish(alloc, hash_key, words, folder, out) {
        Ok(()) => Ended::with(None),
        Err(fault) => {
            let _told = write_fault(&fault, err);
            Ended::with(Some(fault))
        }
    }
}
