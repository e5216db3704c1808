//! What can be wrong with a word.
ghost use Rattle.std.specs.Prelude.{◌≡◌};
ghost use Rattle.chain_words.specs.declared.fault.WordFault.TheVariants as fault;

use rel_io::{Dup, NoMemory};
use std::alloc::Global;
use std::error::Error;
use std::fmt;

/// What is wrong with a word.
#[derive(Clone, Copy, Debug, PartialEq, Eq)]
pub enum WordKind {
    /// There are more than 1,024 words, or a 65th command begins.
    TooMany,
    /// There is no word, or the first is neither `merge` nor `generate`.
    NoCommand,
    /// A step ends without a required option, or `generate` has no number.
    MissingOption,
    /// An output has no format: none is named, and its name ends in neither `.obo` nor `.ofn`.
    NoFormat,
    /// `merge` or `generate` stands behind another command.
    NotHere,
    /// An option that may stand once stands again in its step.
    Repeated,
    /// An option is the last word.
    NoValue,
    /// A value is not one of its option's values.
    BadValue,
    /// A word is no option of the step's command and no command.
    UnknownWord,
    /// An output has the name of a file that is read.
    OutputIsInput,
    /// An output has the name of an earlier output.
    OutputTwice,
}

/// Why there is no command: the bad word that comes first, or memory ran out.
#[derive(Clone, Copy, Debug, PartialEq, Eq)]
pub enum WordFault {
    /// A word is wrong.
    BadWord {
        /// Its index among the words, from 0; of what is missing, that of the word that asks for it.
        index: u32,
        /// What is wrong with it.
        kind: WordKind,
    },
    /// Memory ran out.
    NoMemory,
}

impl fmt::Display for WordFault {
    fn fmt<W: fmt::Write>(&self, f: &mut fmt::Formatter<W>) -> fmt::Result {
        match self {
            WordFault::BadWord { index, kind } => write!(f, "word {index}: {kind:?}"),
            WordFault::NoMemory => write!(f, "out of memory"),
        }
    }
}

impl Error for WordFault {}

impl Dup for WordKind {
    fn copy(&self, _alloc: Global) -> Result<WordKind, NoMemory> {
        Ok(*self)
    }
}

impl From<NoMemory> for WordFault {
    ghost from_gives = { λ _ e. e ≡ fault.NoMemory };

    fn from(_: NoMemory) -> WordFault {
        WordFault::NoMemory
    }
}

/// This word is bad.
pub(crate) fn bad(index: u32, kind: WordKind) -> WordFault
    ensures { result ≡ fault.BadWord index kind }
{
    WordFault::BadWord { index, kind }
}
