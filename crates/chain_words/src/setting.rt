//! Options with their values. The word of a value is read once: as a name, a method, a format or a truth value.
ghost use Rattle.std.specs.Prelude.{◌≡◌, IfOk};
ghost use Rattle.chain_words.specs.Word.{named};
ghost use Rattle.chain_words.specs.Setting.{bool_word, bools, format_word, formats, method_word, methods, setting_of};

use crate::table::OptionWord;
use crate::word::{Named, find_named, name_of};
use crate::{Format, Method};
use rel_io::{Bytes, NoMemory};
use std::alloc::Global;

/// An option with its value.
#[derive(Drop)]
pub enum Setting {
    /// The name of an ontology that is merged.
    Input(Bytes),
    /// The name of the table of files that stand for imports.
    Catalog(Bytes),
    /// The name of the list of names that are extracted.
    TermFile(Bytes),
    /// The name of the file that the step writes.
    Output(Bytes),
    /// How the module is chosen.
    Method(Method),
    /// Whether axioms with annotations stay.
    Preserve(bool),
    /// How the output is written.
    Format(Format),
    /// Whether a frame with two values where one is meant is refused.
    Check(bool),
}

impl Named for Method {
    ghost word = { method_word };

    fn word(self) -> &'static [u8] {
        match self {
            Method::Bot => b"BOT",
            Method::Top => b"TOP",
            Method::Star => b"STAR",
        }
    }
}

impl Named for Format {
    ghost word = { format_word };

    fn word(self) -> &'static [u8] {
        match self {
            Format::Obo => b"obo",
            Format::Ofn => b"ofn",
        }
    }
}

impl Named for bool {
    ghost word = { bool_word };

    fn word(self) -> &'static [u8] {
        if self { b"true" } else { b"false" }
    }
}

/// The method that a word stands for.
fn method(word: &[u8]) -> Option<Method>
    ensures { result ≡ named method_word methods word.now }
{
    find_named(&[Method::Bot, Method::Top, Method::Star], word)
}

/// The format that a word stands for.
fn format(word: &[u8]) -> Option<Format>
    ensures { result ≡ named format_word formats word.now }
{
    find_named(&[Format::Obo, Format::Ofn], word)
}

/// The truth value that a word stands for.
fn truth(word: &[u8]) -> Option<bool>
    ensures { result ≡ named bool_word bools word.now }
{
    find_named(&[true, false], word)
}

/// An option with the value that a word is, if it is one of the option's values.
pub fn setting_of(
    alloc: Global,
    option: OptionWord,
    word: &[u8],
) -> Result<Option<Setting>, NoMemory>
    ensures { IfOk result (λ setting. setting ≡ setting_of option word.now) }
{
    match option {
        OptionWord::Input => Ok(name_of(alloc, word)?.map(Setting::Input)),
        OptionWord::Catalog => Ok(name_of(alloc, word)?.map(Setting::Catalog)),
        OptionWord::TermFile => Ok(name_of(alloc, word)?.map(Setting::TermFile)),
        OptionWord::Output => Ok(name_of(alloc, word)?.map(Setting::Output)),
        OptionWord::Method => Ok(method(word).map(Setting::Method)),
        OptionWord::Preserve => Ok(truth(word).map(Setting::Preserve)),
        OptionWord::Format => Ok(format(word).map(Setting::Format)),
        OptionWord::Check => Ok(truth(word).map(Setting::Check)),
    }
}
