//! Names of outputs that are taken.
ghost use Rattle.std.specs.Prelude.{◌≡◌};
ghost use Rattle.std.specs.List.{list_any};
ghost use Rattle.chain_words.specs.Clash.{clash, first_clash, is_placed};
ghost use Rattle.chain_words.specs.inner.Answers.{Tells};
ghost use Rattle.chain_words.specs.Command.{is_one_of, read_names, reads_of};
ghost use Rattle.chain_words.specs.Given.{option_list};

use crate::given::OutputFile;
use crate::{Chain, Output, Step, WordFault, WordKind};
use rel_io::Bytes;

/// Whether one of these names is this one.
fn is_one_of(name: &[u8], names: &[Bytes]) -> bool
    ensures { result ≡ is_one_of name.now names.now }
{
    names.iter().any(|other| other.as_slice() == name)
}

/// Whether a step reads the file of this name.
fn reads(name: &[u8], step: &Step) -> bool
    ensures { result ≡ is_one_of name.now (reads_of step.now) }
{
    match step {
        Step::Extract { terms, .. } => terms.as_slice() == name,
        _ => false,
    }
}

/// Whether the catalog has this name.
fn is_catalog(name: &[u8], catalog: &Option<Bytes>) -> bool
    ensures { result ≡ is_one_of name.now (option_list catalog.now) }
{
    match catalog {
        None => false,
        Some(catalog) => catalog.as_slice() == name,
    }
}

/// Whether one of these steps reads the file of this name.
fn any_reads(name: &[u8], steps: &[(Step, Option<Output>)]) -> bool
    ensures { result ≡ list_any (λ step. is_one_of name.now (reads_of step.0)) steps.now }
{
    steps.iter().any(|step| reads(name, &step.0))
}

/// Whether a chain reads the file of this name.
#[tactic(auto, using(crate::proofs::Names::read_any))]
fn is_read(name: &[u8], chain: &Chain) -> bool
    ensures { result ≡ is_one_of name.now (read_names chain.now) }
{
    let is_input = is_one_of(name, chain.inputs.as_slice());
    let is_catalog = is_catalog(name, &chain.catalog);
    is_input || is_catalog || any_reads(name, chain.steps.as_slice())
}

/// Whether one of these outputs has this name.
fn is_placed(name: &[u8], outputs: &[OutputFile]) -> bool
    ensures { result ≡ is_placed name.now outputs.now }
{
    outputs.iter().any(|file| file.name.as_slice() == name)
}

/// What is wrong with the name of an output of a chain, behind the outputs before it.
fn clash(chain: &Chain, earlier: &[OutputFile], file: &OutputFile) -> Option<WordKind>
    ensures { result ≡ clash chain.now earlier.now file.now }
{
    let name = file.name.as_slice();
    if is_read(name, chain) {
        return Some(WordKind::OutputIsInput);
    }
    if is_placed(name, earlier) {
        return Some(WordKind::OutputTwice);
    }
    None
}

/// The first name of an output that is taken. A chain has at most 64 outputs and reads at most 511 files, so looking
/// through all of them for each output is bounded, and two names of different lengths are not compared.
pub fn first_clash(chain: &Chain, outputs: &[OutputFile]) -> Option<WordFault>
    ensures { Tells (first_clash chain.now outputs.now) result }
{
    for (index, file) in outputs.iter().enumerate() {
        if let Some(kind) = clash(chain, &outputs[..index], file) {
            return Some(WordFault::BadWord {
                index: file.at,
                kind,
            });
        }
    }
    None
}
