//! The step extract: the term file is read in its turn, and its module stays.
ghost use Rattle.std.specs.Prelude.{◌≡◌, ◌≤◌, IfOk, Ok, length};
ghost use Rattle.std.specs.Option.{option_copied};
ghost use Rattle.iri_map.specs.Ontology as iris;
ghost use Rattle.rel_io.specs.FolderState.{Files, NoCountFell};
ghost use Rattle.rel_io.specs.Limits as limits;
ghost use Rattle.chain_words.specs.Setting.{method_word};
ghost use Rattle.release_chain.specs.Answer.{Answers, AnswersAs};
ghost use Rattle.release_chain.specs.Ending.{Caused, Ends, SameAt};
ghost use Rattle.release_chain.specs.Trace.{Trace};
ghost use Rattle.release_chain.specs.Steps.{extract_part, extracted_trace, extracted_or, seed_in};
ghost use Rattle.release_chain.specs.inner.Work.{HasForms, IsAt};

use crate::counting::counts_of;
use crate::reading::read_named;
use crate::work::{Work, noted};
use chain_words::Method;
use extract_step::extract;
use iri_map::name_or_temp;
use owl_ontology::Ontology;
use rel_io::{Bytes, Dup, Folder, Limits, NoMemory};
use release_report::{Entry, Fault};
use seed_list::{Seed, SeedFault, read_seed};
use std::alloc::Global;
use step_spelling::extracting_keeps_spelling;

/// Keeps what is shipped with the module of the terms of a file.
pub fn extract_terms<F: Folder>(
    alloc: Global,
    folder: &mut F,
    method: Method,
    terms: &Bytes,
    work: Work,
) -> Result<Work, Fault>
    requires forms { HasForms work }
    ensures caused { Caused result (F.state folder.old) (F.state folder.new) }
    ensures counts { NoCountFell (F.state folder.old) (F.state folder.new) }
    ensures forms { IfOk result HasForms }
    ensures ends { (files : Files) (trace : Trace) → IsAt work trace → SameAt terms.now files (F.state folder.old).holds → Ends IsAt (extract_part files method terms.now trace) result (F.state folder.old).holds (F.state folder.new).holds }
{
    let bytes = read_named(alloc, folder, terms)?;
    extract_named(alloc, method, terms, &bytes, work)
}

/// Keeps what is shipped with the module of the terms in these bytes.
pub fn extract_named(
    alloc: Global,
    method: Method,
    terms: &Bytes,
    bytes: &Bytes,
    work: Work,
) -> Result<Work, Fault>
    requires within { length bytes.now ≤ limits.bytes }
    requires forms { HasForms work }
    ensures answer { (trace : Trace) → IsAt work trace → AnswersAs IsAt (extracted_or method trace (seed_in terms.now trace.ontology bytes.now)) result }
    ensures forms { IfOk result HasForms }
{
    let seed = seed_of(alloc, terms, &work.ontology, bytes)?;
    extract_seed(alloc, method, &seed, work)
}

/// The seed in the bytes of a term file.
fn seed_of(alloc: Global, terms: &Bytes, ontology: &Ontology, bytes: &Bytes) -> Result<Seed, Fault>
    requires within { length bytes.now ≤ limits.bytes }
    ensures { Answers (seed_in terms.now ontology.now bytes.now) result }
{
    let file = terms.copy(alloc)?;
    let space = match name_or_temp(alloc, ontology.name()) {
        Ok(space) => space,
        Err(NoMemory) => {
            drop(file);
            return Err(Fault::NoMemory);
        }
    };
    match read_seed(
        alloc,
        ontology.hash_key(),
        bytes,
        &space,
        Limits::release().seed_lines,
    ) {
        Ok(seed) => {
            drop(file);
            Ok(seed)
        }
        Err(SeedFault::SeedLine { line }) => Err(Fault::SeedLine { file, line }),
        Err(SeedFault::EmptySeed) => Err(Fault::EmptySeed { file }),
        Err(SeedFault::NoMemory) => {
            drop(file);
            Err(Fault::NoMemory)
        }
    }
}

/// Keeps what is shipped with the module of a seed.
fn extract_seed(alloc: Global, method: Method, seed: &Seed, work: Work) -> Result<Work, Fault>
    requires forms { HasForms work }
    ensures answer { (trace : Trace) → IsAt work trace → AnswersAs IsAt (Ok (extracted_trace method trace seed.now)) result }
    ensures forms { IfOk result HasForms }
{
    let Work {
        ontology,
        files,
        entries,
    } = work;
    let mut ontology = ontology;
    extracting_keeps_spelling();
    let said = extract(alloc, &mut ontology, method, seed)?;
    let entry = Entry::Extracted {
        method: word_of(alloc, method)?,
        counts: counts_of(&ontology),
        unknown: said.unknown,
        rounds: said.rounds,
    };
    let entries = noted(entries, entry)?;
    Ok(Work {
        ontology,
        files,
        entries,
    })
}

/// The word for a method.
fn word_of(alloc: Global, method: Method) -> Result<Bytes, NoMemory>
    ensures { IfOk result (λ word. word ≡ method_word method) }
{
    let word: &[u8] = match method {
        Method::Bot => b"BOT",
        Method::Top => b"TOP",
        Method::Star => b"STAR",
    };
    Bytes::from_slice(alloc, word)
}
