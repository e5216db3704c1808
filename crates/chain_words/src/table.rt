//! The table of the command line: the commands and their options.
ghost use Rattle.std.specs.Prelude.{◌≡◌, codes};
ghost use Rattle.chain_words.specs.Word.{named};
ghost use Rattle.chain_words.specs.Table.{command_of, command_word, command_words, merge_options, option_word, step_options, step_word};

use crate::word::{Named, find_named};

/// The commands of later steps.
#[derive(Clone, Copy)]
pub enum StepWord {
    /// `extract`: keeps the module of the names of a term file.
    Extract,
    /// `reason`: adds the subclass axioms that follow.
    Reason,
    /// `relax`: adds the subclass axioms that equivalences say.
    Relax,
    /// `reduce`: drops the subclass axioms that follow from others.
    Reduce,
    /// `convert`: writes the ontology in a chosen format.
    Convert,
}

/// The commands.
#[derive(Clone, Copy)]
pub enum CommandWord {
    /// `merge`: reads the inputs and puts them together; the first command of a chain.
    Merge,
    /// `generate`: makes an ontology of a given size; the only command of its arguments.
    Generate,
    /// A command that stands behind `merge`.
    Step(StepWord),
}

/// The words that ask for the next word as their value.
#[derive(Clone, Copy)]
pub enum OptionWord {
    /// `--input`: an ontology that is merged.
    Input,
    /// `--catalog`: the table of files that stand for imports.
    Catalog,
    /// `--term-file`: the list of names that are extracted.
    TermFile,
    /// `--output`: the file that the step writes.
    Output,
    /// `--method`: how the module is chosen.
    Method,
    /// `--preserve-annotated-axioms`: whether axioms with annotations stay.
    Preserve,
    /// `--format`: how the output is written.
    Format,
    /// `--check`: whether a frame with two values where one is meant is refused.
    Check,
}

impl Named for StepWord {
    ghost word = { step_word };

    fn word(self) -> &'static [u8] {
        match self {
            StepWord::Extract => b"extract",
            StepWord::Reason => b"reason",
            StepWord::Relax => b"relax",
            StepWord::Reduce => b"reduce",
            StepWord::Convert => b"convert",
        }
    }
}

impl Named for CommandWord {
    ghost word = { command_word };

    fn word(self) -> &'static [u8] {
        match self {
            CommandWord::Merge => b"merge",
            CommandWord::Generate => b"generate",
            CommandWord::Step(command) => command.word(),
        }
    }
}

impl Named for OptionWord {
    ghost word = { option_word };

    fn word(self) -> &'static [u8] {
        match self {
            OptionWord::Input => b"--input",
            OptionWord::Catalog => b"--catalog",
            OptionWord::TermFile => b"--term-file",
            OptionWord::Output => b"--output",
            OptionWord::Method => b"--method",
            OptionWord::Preserve => b"--preserve-annotated-axioms",
            OptionWord::Format => b"--format",
            OptionWord::Check => b"--check",
        }
    }
}

/// The command that a word stands for.
pub fn command_of(word: &[u8]) -> Option<CommandWord>
    ensures { result ≡ command_of word.now }
{
    let all = [
        CommandWord::Merge,
        CommandWord::Generate,
        CommandWord::Step(StepWord::Extract),
        CommandWord::Step(StepWord::Reason),
        CommandWord::Step(StepWord::Relax),
        CommandWord::Step(StepWord::Reduce),
        CommandWord::Step(StepWord::Convert),
    ];
    find_named(&all, word)
}

/// The options of `merge`.
pub fn merge_options() -> &'static [OptionWord]
    ensures { result.now ≡ merge_options }
{
    &[OptionWord::Input, OptionWord::Catalog, OptionWord::Output]
}

/// The options of a later step.
pub fn step_options(command: StepWord) -> &'static [OptionWord]
    ensures { result.now ≡ step_options command }
{
    match command {
        StepWord::Extract => &[OptionWord::Method, OptionWord::TermFile, OptionWord::Output],
        StepWord::Reason => &[OptionWord::Output],
        StepWord::Relax => &[OptionWord::Output],
        StepWord::Reduce => &[OptionWord::Preserve, OptionWord::Output],
        StepWord::Convert => &[OptionWord::Output, OptionWord::Format, OptionWord::Check],
    }
}
