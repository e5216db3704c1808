//! What a step is given: the values of its options.
ghost use Rattle.std.specs.Prelude.{◌≡◌, ◌++◌, ◌∷◌, [], IfOk};
ghost use Rattle.chain_words.specs.Given.{nothing, option_list, stands_again, with_setting};
ghost use Rattle.chain_words.specs.declared.given.Given.{Given};

use crate::lists::pushed;
use crate::setting::Setting;
use crate::table::OptionWord;
use crate::{Format, Method};
use rel_io::{Bytes, Dup, Items, NoMemory};
use std::alloc::Global;

/// The name of an output, and where it stands.
#[derive(Drop)]
pub struct OutputFile {
    /// Its index among the words.
    pub at: u32,
    /// The name.
    pub name: Bytes,
}

/// The values of the options of a step, so far.
#[derive(Drop)]
pub struct Given {
    /// The inputs, in order.
    pub inputs: Items<Bytes>,
    /// The catalog.
    pub catalog: Option<Bytes>,
    /// The term file.
    pub terms: Option<Bytes>,
    /// The file that the step writes.
    pub output: Option<OutputFile>,
    /// How the module is chosen.
    pub method: Option<Method>,
    /// Whether axioms with annotations stay.
    pub preserve: Option<bool>,
    /// How the output is written.
    pub format: Option<Format>,
    /// Whether a frame with two values where one is meant is refused.
    pub check: Option<bool>,
}

/// Nothing is given yet.
pub fn nothing(alloc: Global) -> Given
    ensures { result ≡ nothing }
{
    Given {
        inputs: Items::from_vec(Vec::new(alloc)),
        catalog: None,
        terms: None,
        output: None,
        method: None,
        preserve: None,
        format: None,
        check: None,
    }
}

/// Whether an option may not stand once more: only `--input` may.
pub fn stands_again(option: OptionWord, given: &Given) -> bool
    ensures { result ≡ stands_again option given.now }
{
    match option {
        OptionWord::Input => false,
        OptionWord::Catalog => given.catalog.is_some(),
        OptionWord::TermFile => given.terms.is_some(),
        OptionWord::Output => given.output.is_some(),
        OptionWord::Method => given.method.is_some(),
        OptionWord::Preserve => given.preserve.is_some(),
        OptionWord::Format => given.format.is_some(),
        OptionWord::Check => given.check.is_some(),
    }
}

/// What is given with one more input.
fn with_input(given: Given, name: Bytes) -> Result<Given, NoMemory>
    ensures { IfOk result (λ more. more ≡ record given { inputs = given.inputs ++ name ∷ [] }) }
{
    let Given {
        inputs,
        catalog,
        terms,
        output,
        method,
        preserve,
        format,
        check,
    } = given;
    match pushed(inputs, name) {
        Ok(inputs) => Ok(Given {
            inputs,
            catalog,
            terms,
            output,
            method,
            preserve,
            format,
            check,
        }),
        Err(NoMemory) => {
            drop(catalog);
            drop(terms);
            drop(output);
            Err(NoMemory)
        }
    }
}

/// What is given with one more option, whose value stands at this index.
pub fn with_setting(mut given: Given, setting: Setting, at: u32) -> Result<Given, NoMemory>
    ensures { IfOk result (λ more. more ≡ with_setting given setting at) }
{
    match setting {
        Setting::Input(name) => return with_input(given, name),
        Setting::Catalog(name) => given.catalog = Some(name),
        Setting::TermFile(name) => given.terms = Some(name),
        Setting::Output(name) => given.output = Some(OutputFile { at, name }),
        Setting::Method(method) => given.method = Some(method),
        Setting::Preserve(keep) => given.preserve = Some(keep),
        Setting::Format(format) => given.format = Some(format),
        Setting::Check(check) => given.check = Some(check),
    }
    Ok(given)
}

/// The outputs with that of one more step, if it has one.
pub fn with_output(
    alloc: Global,
    outputs: Items<OutputFile>,
    output: &Option<OutputFile>,
) -> Result<Items<OutputFile>, NoMemory>
    ensures { IfOk result (λ more. more ≡ outputs ++ option_list output.now) }
{
    let Some(file) = output else {
        return Ok(outputs);
    };
    match file.name.copy(alloc) {
        Ok(name) => pushed(outputs, OutputFile { at: file.at, name }),
        Err(NoMemory) => {
            drop(outputs);
            Err(NoMemory)
        }
    }
}
