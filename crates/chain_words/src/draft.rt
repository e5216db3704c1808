//! What the words read so far say, and what one more word adds. What a bad word makes useless is dropped by a call, so that
//! a proof speaks of one call and not of each field.
ghost use Rattle.std.specs.Prelude.{◌≡◌, Ok, IfOk, IfErr, None};
ghost use Rattle.chain_words.specs.Clash.{first_clash};
ghost use Rattle.chain_words.specs.Draft.{at_command, at_end, at_option, at_place, at_value, at_word, begun, ended, next_command, option_of, tested, turn, with_given};
ghost use Rattle.chain_words.specs.Fault.{IsBadWord};
ghost use Rattle.chain_words.specs.inner.Answers.{Answers};
ghost use Rattle.chain_words.specs.Given.{with_setting};
ghost use Rattle.chain_words.specs.Table.{command_of};
ghost use Rattle.chain_words.specs.declared.draft.Draft.{Draft};

use crate::clash::first_clash;
use crate::fault::bad;
use crate::given::{Given, OutputFile, nothing, stands_again, with_output, with_setting};
use crate::setting::{Setting, setting_of};
use crate::step::{followed, merged};
use crate::table::{CommandWord, OptionWord, StepWord, command_of, merge_options, step_options};
use crate::word::find_named;
use crate::{Chain, Command, WordFault, WordKind};
use rel_io::{Items, NoMemory};
use std::alloc::Global;

/// The most commands that a chain has, `merge` among them.
const MOST_COMMANDS: usize = 64;

/// An option whose value comes next.
#[derive(Clone, Copy)]
pub struct Asked {
    /// The option.
    pub option: OptionWord,
    /// The index of its word.
    pub at: u32,
}

/// The command of the step that is being read, with the chain before it.
#[derive(Drop)]
pub enum Part {
    /// `merge`, before which there is nothing.
    Merge,
    /// A later step, behind a chain.
    Step {
        /// The steps before it.
        chain: Chain,
        /// Its command.
        command: StepWord,
    },
}

/// What the words so far say.
#[derive(Drop)]
pub struct Draft {
    /// The command of the step that is being read.
    pub part: Part,
    /// The index of its word.
    pub at: u32,
    /// What the step is given.
    pub given: Given,
    /// The outputs of the steps before it, in order.
    pub outputs: Items<OutputFile>,
    /// The option whose value the next word is, if there is one.
    pub asked: Option<Asked>,
}

/// The option of the step that a word stands for.
fn option_of(part: &Part, word: &[u8]) -> Option<OptionWord>
    ensures { result ≡ option_of part.now word.now }
{
    match part {
        Part::Merge => find_named(merge_options(), word),
        Part::Step { command, .. } => find_named(step_options(*command), word),
    }
}

/// Where a step ends, it means the chain with it.
fn ended(alloc: Global, part: Part, at: u32, given: Given) -> Result<Chain, WordFault>
    ensures { Answers (ended part at given) result }
{
    match part {
        Part::Merge => merged(alloc, at, given),
        Part::Step { chain, command } => followed(chain, command, at, given),
    }
}

/// An option word: its value comes next.
fn at_option(mut draft: Draft, option: OptionWord, at: u32) -> Result<Draft, WordFault>
    ensures { Answers (at_option draft option at) result }
{
    if stands_again(option, &draft.given) {
        drop(draft);
        return Err(bad(at, WordKind::Repeated));
    }
    draft.asked = Some(Asked { option, at });
    Ok(draft)
}

/// The setting that this word gives to an option, whatever the draft.
fn setting_at(alloc: Global, option: OptionWord, at: u32, word: &[u8]) -> Result<Setting, WordFault>
    ensures setting { IfOk result (λ setting. (draft : Draft) → at_value draft option at word.now ≡ Ok (with_given draft setting at)) }
    ensures bad_value { IfErr result (λ fault. (draft : Draft) → IsBadWord (at_value draft option at word.now) fault) }
{
    match setting_of(alloc, option, word) {
        Ok(Some(setting)) => Ok(setting),
        Ok(None) => Err(bad(at, WordKind::BadValue)),
        Err(NoMemory) => Err(WordFault::NoMemory),
    }
}

/// The step is given one more value.
fn with_given(draft: Draft, setting: Setting, at: u32) -> Result<Draft, WordFault>
    ensures { Answers (Ok (with_given draft setting at)) result }
{
    let Draft {
        part,
        at: begun_at,
        given,
        outputs,
        asked: _,
    } = draft;
    match with_setting(given, setting, at) {
        Ok(given) => Ok(Draft {
            part,
            at: begun_at,
            given,
            outputs,
            asked: None,
        }),
        Err(NoMemory) => {
            drop(part);
            drop(outputs);
            Err(WordFault::NoMemory)
        }
    }
}

/// The value of an option.
fn at_value(
    alloc: Global,
    draft: Draft,
    option: OptionWord,
    at: u32,
    word: &[u8],
) -> Result<Draft, WordFault>
    ensures { Answers (at_value draft option at word.now) result }
{
    match setting_at(alloc, option, at, word) {
        Ok(setting) => with_given(draft, setting, at),
        Err(fault) => {
            drop(draft);
            Err(fault)
        }
    }
}

/// What a command word begins behind a chain: the command of a later step, where one may stand.
fn next_command(command: CommandWord, steps: usize) -> Result<StepWord, WordKind>
    ensures { result ≡ next_command command steps }
{
    match command {
        CommandWord::Merge | CommandWord::Generate => Err(WordKind::NotHere),
        CommandWord::Step(step) => {
            if steps >= MOST_COMMANDS - 1 {
                return Err(WordKind::TooMany);
            }
            Ok(step)
        }
    }
}

/// A step of this command begins, behind the steps of a chain.
fn begun(
    alloc: Global,
    outputs: Items<OutputFile>,
    command: CommandWord,
    at: u32,
    chain: Chain,
) -> Result<Draft, WordFault>
    ensures { Answers (begun outputs command at chain) result }
{
    match next_command(command, chain.steps.as_slice().len()) {
        Ok(command) => Ok(Draft {
            part: Part::Step { chain, command },
            at,
            given: nothing(alloc),
            outputs,
            asked: None,
        }),
        Err(kind) => {
            drop(chain);
            drop(outputs);
            Err(bad(at, kind))
        }
    }
}

/// A command word: the step before it ends.
fn at_command(
    alloc: Global,
    draft: Draft,
    command: CommandWord,
    at: u32,
) -> Result<Draft, WordFault>
    ensures { Answers (at_command draft command at) result }
{
    let Draft {
        part,
        at: begun_at,
        given,
        outputs,
        asked: _,
    } = draft;
    let outputs = with_output(alloc, outputs, &given.output);
    match (ended(alloc, part, begun_at, given), outputs) {
        (Ok(chain), Ok(outputs)) => begun(alloc, outputs, command, at, chain),
        (Ok(chain), Err(NoMemory)) => {
            drop(chain);
            Err(WordFault::NoMemory)
        }
        (Err(fault), outputs) => {
            drop(outputs);
            Err(fault)
        }
    }
}

/// A word that stands for an option, else for a command.
fn at_word(alloc: Global, draft: Draft, at: u32, word: &[u8]) -> Result<Draft, WordFault>
    ensures { Answers (at_word (option_of draft.part word.now) (command_of word.now) draft at) result }
{
    match option_of(&draft.part, word) {
        Some(option) => at_option(draft, option, at),
        None => match command_of(word) {
            Some(command) => at_command(alloc, draft, command, at),
            None => {
                drop(draft);
                Err(bad(at, WordKind::UnknownWord))
            }
        },
    }
}

/// What one more word adds.
pub fn turn(alloc: Global, draft: Draft, at: u32, word: &[u8]) -> Result<Draft, WordFault>
    ensures { Answers (turn draft at word.now) result }
{
    match draft.asked {
        Some(asked) => at_value(alloc, draft, asked.option, at, word),
        None => at_word(alloc, draft, at, word),
    }
}

/// A chain whose outputs have names of their own.
fn tested(chain: Chain, outputs: &[OutputFile]) -> Result<Command, WordFault>
    ensures { Answers (tested chain (first_clash chain outputs.now)) result }
{
    match first_clash(&chain, outputs) {
        None => Ok(Command::Run(chain)),
        Some(fault) => {
            drop(chain);
            Err(fault)
        }
    }
}

/// Behind the last word: an option has no value, or the last step ends.
pub fn at_end(alloc: Global, draft: Draft) -> Result<Command, WordFault>
    ensures { Answers (at_end draft.asked draft) result }
{
    if let Some(asked) = draft.asked {
        drop(draft);
        return Err(bad(asked.at, WordKind::NoValue));
    }
    let Draft {
        part,
        at,
        given,
        outputs,
        asked: _,
    } = draft;
    let outputs = with_output(alloc, outputs, &given.output);
    match (ended(alloc, part, at, given), outputs) {
        (Ok(chain), Ok(outputs)) => tested(chain, outputs.as_slice()),
        (Ok(chain), Err(NoMemory)) => {
            drop(chain);
            Err(WordFault::NoMemory)
        }
        (Err(fault), outputs) => {
            drop(outputs);
            Err(fault)
        }
    }
}
