//! What holds of all words that are accepted. Each law is the contract of a function that does nothing.
ghost use Rattle.std.specs.Prelude.{◌≡◌, ◌≤◌, Ok, map, string_bytes};
ghost use Rattle.chain_words.specs.Read.{chain};
ghost use Rattle.chain_words.specs.Laws.{BeginsWithMerge, FormatsFollowNames, IsWellFormed, NoOutputIsInput, NoOutputTwice, OptionsChangePlaces, words_of};
ghost use Rattle.chain_words.specs.declared.command.Command.TheVariants.{Generate, Run};

use crate::Chain;

/// In an accepted chain no output has the name of an input, a catalog or a term file, and no two outputs have one name:
/// what a step writes is not lost, and of the files that the words name none is read back.
pub fn outputs_stand_apart(words: &Vec<String>, accepted: &Chain)
    requires { chain (map string_bytes words.now.items) ≡ Ok (Run accepted.now) }
    ensures no_input { NoOutputIsInput accepted.now }
    ensures no_second { NoOutputTwice accepted.now }
{}

/// In an accepted chain each output has a format: the one that its name tells, unless its step is a `convert`,
/// which may name another, and which alone may ask for no check.
pub fn formats_follow_names(words: &Vec<String>, accepted: &Chain)
    requires { chain (map string_bytes words.now.items) ≡ Ok (Run accepted.now) }
    ensures { FormatsFollowNames accepted.now }
{}

/// The first step of an accepted chain is `merge`. No later one is: `Step` has no such step.
pub fn merge_is_first(words: &Vec<String>, accepted: &Chain)
    requires { chain (map string_bytes words.now.items) ≡ Ok (Run accepted.now) }
    ensures { BeginsWithMerge (map string_bytes words.now.items) }
{}

/// An accepted chain is well-formed: it has an input and at most 63 later steps, each `convert` has its output, no name is
/// empty, formats follow names, outputs stand apart, and at most 1,024 words spell it.
pub fn chains_are_well_formed(words: &Vec<String>, accepted: &Chain)
    requires { chain (map string_bytes words.now.items) ≡ Ok (Run accepted.now) }
    ensures { IsWellFormed accepted.now }
{}

/// The size of an accepted `generate` is from 10 to 1000000.
pub fn sizes_are_bounded(words: &Vec<String>, size: u32)
    requires { chain (map string_bytes words.now.items) ≡ Ok (Generate size) }
    ensures { (10 ≤ size) × (size ≤ 1000000) }
{}

/// Every chain that is well-formed has words that ask for it: those that spell its steps in order, each with its options.
/// So the accepted chains are the well-formed ones, and no others.
pub fn well_formed_chains_have_words(asked: &Chain)
    requires { IsWellFormed asked.now }
    ensures { chain (words_of asked.now) ≡ Ok (Run asked.now) }
{}

/// Where two neighbouring options of a step are not the same, they may change places: the words are accepted as
/// before, and mean the same. So the order of a step's options is free, where none is repeated.
pub fn options_change_places()
    ensures { OptionsChangePlaces }
{}
