//! What words ask for, with the answers worked out by hand from the table of commands.
use chain_words::{Chain, Command, Output, Step, read_words};
use document_examples::{is_copied, push, wrong_in};
use rel_io::{Bytes, NoMemory};
use std::alloc::{AllocError, Global};
use std::test::Fail;

/// Words, and the answer to them. Two blanks have an empty word between them, `~` is a blank in a word, `w*3` is the
/// word `w` three times, and `w+3` is the word `www`.
const ANSWERS: &str = " => word 0: NoCommand
reason => word 0: NoCommand
merge --output x.obo => word 0: MissingOption
merge --input => word 1: NoValue
merge --input a convert --output b => word 5: NoFormat
merge --input a merge => word 3: NotHere
merge --input a extract --method MID => word 5: BadValue
merge --input a.obo convert --output a.obo => word 5: OutputIsInput
merge --input a --output b.obo convert --output b.obo => word 7: OutputTwice
generate 9 => word 1: BadValue
generate 10 relax => word 2: UnknownWord
merge --input a explode => word 3: UnknownWord
Merge --input a => word 0: NoCommand
 merge => word 0: NoCommand
generate => word 0: MissingOption
generate 1000001 => word 1: BadValue
generate 99999999999999999999 => word 1: BadValue
generate 010 => word 1: BadValue
generate +10 => word 1: BadValue
generate 1x => word 1: BadValue
generate  => word 1: BadValue
generate x y => word 1: BadValue
generate 10  => word 2: UnknownWord
merge --input a --catalog c --catalog d => word 5: Repeated
merge --input a --output x.obo --output => word 5: Repeated
merge --input a --catalog => word 3: NoValue
merge --input a --output => word 3: NoValue
merge --input  => word 2: BadValue
merge --input a --catalog  => word 4: BadValue
merge --input a --output  => word 4: BadValue
merge --input a extract --method BOT --method TOP => word 6: Repeated
merge --input a extract --term-file t --term-file u => word 6: Repeated
merge --input a extract --output x.obo --output y.obo => word 6: Repeated
merge --input a extract --method => word 4: NoValue
merge --input a extract --term-file => word 4: NoValue
merge --input a extract --method  => word 5: BadValue
merge --input a extract --method bot => word 5: BadValue
merge --input a extract --term-file  => word 5: BadValue
merge --input a extract --method BOT => word 3: MissingOption
merge --input a extract --term-file t => word 3: MissingOption
merge --input a reason --output x.obo --output y.obo => word 6: Repeated
merge --input a reason --output => word 4: NoValue
merge --input a reason --output  => word 5: BadValue
merge --input a relax --output x.obo --output y.obo => word 6: Repeated
merge --input a relax --output => word 4: NoValue
merge --input a reduce --preserve-annotated-axioms true --preserve-annotated-axioms true => word 6: Repeated
merge --input a reduce --preserve-annotated-axioms => word 4: NoValue
merge --input a reduce --preserve-annotated-axioms  => word 5: BadValue
merge --input a reduce --preserve-annotated-axioms TRUE => word 5: BadValue
merge --input a convert => word 3: MissingOption
merge --input a convert --format obo => word 3: MissingOption
merge --input a convert --output x.obo --output y.obo => word 6: Repeated
merge --input a convert --format obo --format obo => word 6: Repeated
merge --input a convert --check true --check true => word 6: Repeated
merge --input a convert --format => word 4: NoValue
merge --input a convert --check => word 4: NoValue
merge --input a convert --format OBO => word 5: BadValue
merge --input a convert --format  => word 5: BadValue
merge --input a convert --check no => word 5: BadValue
merge --input a reason --check true => word 4: UnknownWord
merge --format obo => word 1: UnknownWord
merge explode => word 1: UnknownWord
merge merge => word 0: MissingOption
merge --output b merge => word 0: MissingOption
merge --input a --output b merge => word 4: NoFormat
merge --input a --output b.OBO reason => word 4: NoFormat
merge --input a generate 10 => word 3: NotHere
merge --output a.obo --input a.obo => word 2: OutputIsInput
merge --input a --catalog c.obo --output c.obo => word 6: OutputIsInput
merge --input a --output t.obo extract --method BOT --term-file t.obo => word 4: OutputIsInput
merge --input a --output b.obo convert --format ofn --output b.obo => word 9: OutputTwice
merge --input b.obo --output c.obo reason --output c.obo relax --output b.obo => word 7: OutputTwice
merge --input a.obo --output a.obo reason merge => word 6: NotHere
merge --input a reason*63 => accepted
merge --input a reason*64 => word 66: TooMany
merge --input a reason*63 merge => word 66: NotHere
merge --input a reason*63 explode => word 66: UnknownWord
merge --input*1022 => accepted
merge --input*1023 => word 1023: NoValue
merge --input*1024 => word 1024: TooMany
explode*1025 => word 1024: TooMany
merge --input A.obo convert --output a.obo => accepted
merge --input 0123456789+10000 --catalog a => accepted";

/// Words that are accepted, and what they ask for: the inputs and the catalog, the output of the merge, and each step
/// with its output. Of an output its name, its format and whether it is checked are told.
const CHAINS: &str = "\
generate 1000000 => generate 1000000
merge --input a => inputs a
merge --input a --catalog c~d => inputs a, catalog c d
merge --input \u{e9}\u{10ffff} => inputs \u{e9}\u{10ffff}
merge --output m.ofn --input a.obo --catalog c --input a.obo extract --output s.obo --term-file t --method STAR reason relax --output .ofn => inputs a.obo a.obo, catalog c, m.ofn Ofn true, Star t, s.obo Obo true, Reason, Relax, .ofn Ofn true
merge --input a extract --method BOT --term-file t extract --term-file u --method TOP => inputs a, Bot t, Top u
merge --input a reduce --preserve-annotated-axioms true reduce --output .obo => inputs a, Reduce { keep: true }, Reduce { keep: false }, .obo Obo true
merge --input a convert --check false --format ofn --output x.obo convert --output A.OBO --format obo => inputs a, Convert, x.obo Ofn false, Convert, A.OBO Obo true";

/// The words of an example.
pub fn words_of(alloc: Global, text: &str) -> Result<Vec<String>, AllocError> {
    let mut words = Vec::new(alloc);
    if text.is_empty() {
        return Ok(words);
    }
    for part in text.split(' ') {
        let (word, times) = part.split_once('*').unwrap_or((part, "1"));
        for _ in 0..times.parse::<u32>().unwrap_or(0) {
            words.push(word_of(alloc, word)?)?;
        }
    }
    Ok(words)
}

/// A word of an example.
fn word_of(alloc: Global, text: &str) -> Result<String, AllocError> {
    let (word, times) = text.split_once('+').unwrap_or((text, "1"));
    let word = word.replace(alloc, "~", " ")?;
    word.repeat(alloc, times.parse::<usize>().unwrap_or(1))
}

#[test]
fn words_are_accepted_or_the_first_bad_one_is_named(rt: HostRuntime) -> Result<(), Fail> {
    let wrong = wrong_in(rt.alloc(), ANSWERS, answer_to)?;
    assert_eq!(rt; wrong.as_str(), "");
    Ok(())
}

/// What the answer to these words is.
fn answer_to(alloc: Global, text: &str) -> Result<Vec<u8>, NoMemory> {
    let words = words_of(alloc, text)?;
    let shown = match read_words(alloc, &words) {
        Ok(_) => String::from_str(alloc, "accepted"),
        Err(fault) => format!(in alloc; "{fault}"),
    };
    Ok(shown?.into_bytes())
}

#[test]
fn accepted_words_mean_their_chain(rt: HostRuntime) -> Result<(), Fail> {
    let wrong = wrong_in(rt.alloc(), CHAINS, meant_by)?;
    assert_eq!(rt; wrong.as_str(), "");
    Ok(())
}

/// What these words ask for.
fn meant_by(alloc: Global, text: &str) -> Result<Vec<u8>, NoMemory> {
    let words = words_of(alloc, text)?;
    match read_words(alloc, &words) {
        Ok(command) => shown_command(alloc, &command),
        Err(fault) => Ok(format!(in alloc; "{fault}")?.into_bytes()),
    }
}

fn shown_command(alloc: Global, command: &Command) -> Result<Vec<u8>, NoMemory> {
    if !is_copied(alloc, command)? {
        return Ok(format!(in alloc; "another copy")?.into_bytes());
    }
    match command {
        Command::Generate(size) => Ok(format!(in alloc; "generate {size}")?.into_bytes()),
        Command::Run(chain) => shown_chain(alloc, chain),
    }
}

fn shown_chain(alloc: Global, chain: &Chain) -> Result<Vec<u8>, NoMemory> {
    let mut out = Vec::from_slice(alloc, b"inputs")?;
    for input in chain.inputs.as_slice() {
        push_name(&mut out, b" ", input)?;
    }
    if let Some(catalog) = &chain.catalog {
        push_name(&mut out, b", catalog ", catalog)?;
    }
    push_output(alloc, &mut out, &chain.first)?;
    for (step, output) in chain.steps.as_slice() {
        push_step(alloc, &mut out, step)?;
        push_output(alloc, &mut out, output)?;
    }
    Ok(out)
}

fn push_name(out: &mut Vec<u8>, before: &[u8], name: &Bytes) -> Result<(), NoMemory> {
    push(out, before)?;
    push(out, name.as_slice())
}

fn push_step(alloc: Global, out: &mut Vec<u8>, step: &Step) -> Result<(), NoMemory> {
    match step {
        Step::Extract { method, terms } => {
            push(out, format!(in alloc; ", {method:?}")?.as_bytes())?;
            push_name(out, b" ", terms)
        }
        _ => push(out, format!(in alloc; ", {step:?}")?.as_bytes()),
    }
}

fn push_output(alloc: Global, out: &mut Vec<u8>, output: &Option<Output>) -> Result<(), NoMemory> {
    if let Some(output) = output {
        push_name(out, b", ", &output.name)?;
        let rest = format!(in alloc; " {:?} {}", output.format, output.check)?;
        push(out, rest.as_bytes())?;
    }
    Ok(())
}
