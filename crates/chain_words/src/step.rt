//! What a step means where it ends: what it needs, and its output.
ghost use Rattle.std.specs.Prelude.{◌≡◌, ◌++◌, ◌∷◌, [], IfOk};
ghost use Rattle.chain_words.specs.inner.Answers.{Answers};
ghost use Rattle.chain_words.specs.Step.{converted, extracted, followed, format_of_name, merged, output_to, plain_output, step_of, with_plain_output};

use crate::fault::bad;
use crate::given::{Given, OutputFile};
use crate::lists::pushed;
use crate::table::StepWord;
use crate::{Chain, Format, Method, Output, Step, WordFault, WordKind};
use rel_io::{Bytes, Items, NoMemory};
use std::alloc::Global;

/// The format that the end of a name tells.
fn format_of_name(name: &[u8]) -> Option<Format>
    ensures { result ≡ format_of_name name.now }
{
    if name.ends_with(b".obo") {
        return Some(Format::Obo);
    }
    if name.ends_with(b".ofn") {
        return Some(Format::Ofn);
    }
    None
}

/// The output in this file, where it has a format.
fn output_to(file: OutputFile, format: Option<Format>, check: bool) -> Result<Output, WordFault>
    ensures { Answers (output_to file format check) result }
{
    let OutputFile { at, name } = file;
    match format {
        None => {
            drop(name);
            Err(bad(at, WordKind::NoFormat))
        }
        Some(format) => Ok(Output {
            name,
            format,
            check,
        }),
    }
}

/// The output of a step that is no `convert`, if it has one.
fn plain_output(file: Option<OutputFile>) -> Result<Option<Output>, WordFault>
    ensures { Answers (plain_output file) result }
{
    match file {
        None => Ok(None),
        Some(file) => {
            let format = format_of_name(file.name.as_slice());
            match output_to(file, format, true) {
                Ok(output) => Ok(Some(output)),
                Err(fault) => Err(fault),
            }
        }
    }
}

/// A step that is no `convert`, with its output.
fn with_plain_output(
    step: Step,
    file: Option<OutputFile>,
) -> Result<(Step, Option<Output>), WordFault>
    ensures { Answers (with_plain_output step file) result }
{
    match plain_output(file) {
        Ok(output) => Ok((step, output)),
        Err(fault) => {
            drop(step);
            Err(fault)
        }
    }
}

/// What `extract` means: it needs a method and a term file.
fn extracted(
    at: u32,
    method: Option<Method>,
    terms: Option<Bytes>,
    file: Option<OutputFile>,
) -> Result<(Step, Option<Output>), WordFault>
    ensures { Answers (extracted at method terms file) result }
{
    match (method, terms) {
        (Some(method), Some(terms)) => with_plain_output(Step::Extract { method, terms }, file),
        (_, terms) => {
            drop(terms);
            drop(file);
            Err(bad(at, WordKind::MissingOption))
        }
    }
}

/// What `convert` means: it needs an output, of which it may choose the format and the check.
fn converted(
    at: u32,
    file: Option<OutputFile>,
    format: Option<Format>,
    check: Option<bool>,
) -> Result<(Step, Option<Output>), WordFault>
    ensures { Answers (converted at file format check) result }
{
    let Some(file) = file else {
        return Err(bad(at, WordKind::MissingOption));
    };
    let format = format.or(format_of_name(file.name.as_slice()));
    match output_to(file, format, check.unwrap_or(true)) {
        Ok(output) => Ok((Step::Convert, Some(output))),
        Err(fault) => Err(fault),
    }
}

/// A later step with its output.
fn step_of(command: StepWord, at: u32, given: Given) -> Result<(Step, Option<Output>), WordFault>
    ensures { Answers (step_of command at given) result }
{
    let Given {
        inputs,
        catalog,
        terms,
        output,
        method,
        preserve,
        format,
        check,
    } = given;
    drop(inputs);
    drop(catalog);
    match command {
        StepWord::Extract => extracted(at, method, terms, output),
        StepWord::Reason => with_plain_output(Step::Reason, output),
        StepWord::Relax => with_plain_output(Step::Relax, output),
        StepWord::Reduce => {
            let keep = preserve.unwrap_or(false);
            with_plain_output(Step::Reduce { keep }, output)
        }
        StepWord::Convert => converted(at, output, format, check),
    }
}

/// The chain that begins with this `merge`, which needs an input.
pub fn merged(alloc: Global, at: u32, given: Given) -> Result<Chain, WordFault>
    ensures { Answers (merged at given) result }
{
    let Given {
        inputs,
        catalog,
        terms,
        output,
        ..
    } = given;
    drop(terms);
    if inputs.as_slice().is_empty() {
        drop(inputs);
        drop(catalog);
        drop(output);
        return Err(bad(at, WordKind::MissingOption));
    }
    match plain_output(output) {
        Ok(first) => Ok(Chain {
            inputs,
            catalog,
            first,
            steps: Items::from_vec(Vec::new(alloc)),
        }),
        Err(fault) => {
            drop(inputs);
            drop(catalog);
            Err(fault)
        }
    }
}

/// The chain with one more step.
fn with_step(chain: Chain, step: (Step, Option<Output>)) -> Result<Chain, NoMemory>
    ensures { IfOk result (λ longer. longer ≡ record chain { steps = chain.steps ++ step ∷ [] }) }
{
    let Chain {
        inputs,
        catalog,
        first,
        steps,
    } = chain;
    match pushed(steps, step) {
        Ok(steps) => Ok(Chain {
            inputs,
            catalog,
            first,
            steps,
        }),
        Err(NoMemory) => {
            drop(inputs);
            drop(catalog);
            drop(first);
            Err(NoMemory)
        }
    }
}

/// The chain with this later step.
pub fn followed(chain: Chain, command: StepWord, at: u32, given: Given) -> Result<Chain, WordFault>
    ensures { Answers (followed chain command at given) result }
{
    match step_of(command, at, given) {
        Err(fault) => {
            drop(chain);
            Err(fault)
        }
        Ok(step) => match with_step(chain, step) {
            Ok(longer) => Ok(longer),
            Err(NoMemory) => Err(WordFault::NoMemory),
        },
    }
}
