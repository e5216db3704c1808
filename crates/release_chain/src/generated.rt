//! `generate`: the steps of a release on the generated document, in memory. No file is touched.
ghost use Rattle.std.specs.Prelude.{◌≡◌, ◌<◌, ◌≤◌, ◌^◌, [], ◌∷◌, IfErr, IfOk, Ok, length};
ghost use Rattle.rel_io.specs.Limits as limits;
ghost use Rattle.obo_frames.specs.Answer.{document_of};
ghost use Rattle.obo_gen.specs.Generated.{generated};
ghost use Rattle.owl_ontology.specs.Ontology.{axioms_of};
ghost use Rattle.chain_words.specs.declared.command.Format.TheVariants.{Obo};
ghost use Rattle.import_closure.specs.Closure.{document_answer, fault_in};
ghost use Rattle.release_report.specs.declared.entry.Entry.TheVariants as entry;
ghost use Rattle.release_report.specs.declared.fault.Fault.TheVariants as fault;
ghost use Rattle.release_chain.specs.Answer.{Answers, AnswersAs};
ghost use Rattle.release_chain.specs.Counts.{counts_of};
ghost use Rattle.release_chain.specs.Generated as spec;
ghost use Rattle.release_chain.specs.Generated.{inferred_or, module_or, printed_or, printed_trace, released_or, slimmed_or, source_or};
ghost use Rattle.release_chain.specs.Outputs.{text_of};
ghost use Rattle.release_chain.specs.Trace.{Trace, fault_of_load};
ghost use Rattle.release_chain.specs.inner.Finish.{GeneratedEnds};
ghost use Rattle.release_chain.specs.inner.Generating.{BegunEnds, MergedEnds};
ghost use Rattle.release_chain.specs.inner.Work.{HasForms, IsAt};

use crate::axioms::{reduced, relaxed};
use crate::counting::counts_of;
use crate::inference::reasoned;
use crate::modules::extract_named;
use crate::output::obo_for;
use crate::work::{Work, noted};
use chain_words::Method;
use hash_key::HashKey;
use import_closure::SourceFile;
use import_merge::merge_file;
use obo_frames::{DocFault, read_document};
use obo_gen::{generate, generate_seed};
use owl_ontology::Ontology;
use rel_io::{Bytes, Items, Limits, NoMemory};
use release_report::{Entry, Fault};
use std::alloc::Global;

/// Does the steps of a release on the generated document of a size.
pub fn run_generated(alloc: Global, hash_key: HashKey, size: u32) -> Result<Work, Fault>
    requires { (10 ≤ size) × (size ≤ 1000000) }
    ensures { GeneratedEnds size result }
{
    let work = begun(alloc, hash_key, size)?;
    released(alloc, size, work)
}

/// The module of the stated terms, and then the other steps.
fn released(alloc: Global, size: u32, work: Work) -> Result<Work, Fault>
    requires size { (10 ≤ size) × (size ≤ 1000000) }
    requires forms { HasForms work }
    ensures { (trace : Trace) → IsAt work trace → AnswersAs IsAt (released_or size trace) result }
{
    let work = extracted(alloc, size, work)?;
    inferred(alloc, work)
}

/// The module of the stated terms.
fn extracted(alloc: Global, size: u32, work: Work) -> Result<Work, Fault>
    requires size { (10 ≤ size) × (size ≤ 1000000) }
    requires forms { HasForms work }
    ensures answer { (trace : Trace) → IsAt work trace → AnswersAs IsAt (module_or size trace) result }
    ensures forms { IfOk result HasForms }
{
    let name = generated_name(alloc)?;
    let terms = generate_seed(alloc, size)?;
    extract_named(alloc, Method::Star, &name, &terms, work)
}

/// The step reason, and then the other steps.
fn inferred(alloc: Global, work: Work) -> Result<Work, Fault>
    requires forms { HasForms work }
    ensures { (trace : Trace) → IsAt work trace → AnswersAs IsAt (inferred_or trace) result }
{
    let work = reasoned(alloc, work)?;
    slimmed(alloc, work)
}

/// The steps relax and reduce, and then the text.
fn slimmed(alloc: Global, work: Work) -> Result<Work, Fault>
    requires forms { HasForms work }
    ensures { (trace : Trace) → IsAt work trace → AnswersAs IsAt (slimmed_or trace) result }
{
    let work = relaxed(alloc, work)?;
    let work = reduced(alloc, false, work)?;
    printed(alloc, work)
}

/// The text, of which only the size is told.
fn printed(alloc: Global, work: Work) -> Result<Work, Fault>
    requires forms { HasForms work }
    ensures { (trace : Trace) → IsAt work trace → AnswersAs IsAt (printed_or trace) result }
{
    let text = obo_for(alloc, &work.ontology, work.files.as_slice(), true)?;
    with_printed(text.as_slice().len() as u64, work)
}

/// The report with the size of the text.
fn with_printed(bytes: u64, work: Work) -> Result<Work, Fault>
    ensures { (trace : Trace) → IsAt work trace → bytes ≡ length (text_of Obo work.ontology) → AnswersAs IsAt (Ok (printed_trace trace)) result }
{
    let Work {
        ontology,
        files,
        entries,
    } = work;
    let entries = noted(entries, Entry::Printed { bytes })?;
    Ok(Work {
        ontology,
        files,
        entries,
    })
}

/// The axioms of the generated document, and the first lines of the report.
fn begun(alloc: Global, hash_key: HashKey, size: u32) -> Result<Work, Fault>
    requires { (10 ≤ size) × (size ≤ 1000000) }
    ensures ends { BegunEnds size result }
    ensures forms { IfOk result HasForms }
{
    let text = generate(alloc, size)?;
    let source = source_in(alloc, text.as_slice())?;
    let bytes = text.as_slice().len() as u64;
    drop(text);
    merged(alloc, hash_key, size, bytes, source)
}

/// The generated document as a file.
fn source_in(alloc: Global, text: &[u8]) -> Result<SourceFile, Fault>
    requires { length text.now < 2 ^ 32 }
    ensures { Answers (source_or (document_answer spec.generated_name (document_of limits.line text.now))) result }
{
    let name = generated_name(alloc)?;
    match read_document(alloc, text, Limits::release().line) {
        Ok(document) => Ok(SourceFile { name, document }),
        Err(fault) => Err(document_fault(fault, name)),
    }
}

/// The name by which faults speak of the generated document.
fn generated_name(alloc: Global) -> Result<Bytes, NoMemory>
    ensures { IfOk result (λ name. name ≡ spec.generated_name) }
{
    Bytes::from_slice(alloc, b"generated")
}

/// What is wrong with a document, as the fault of its file.
fn document_fault(fault: DocFault, file: Bytes) -> Fault
    ensures { result ≡ fault_of_load (fault_in file fault) }
{
    match fault {
        DocFault::NotUtf8 { line } => Fault::NotUtf8 { file, line },
        DocFault::LineTooLong { line } => Fault::LineTooLong { file, line },
        DocFault::Syntax { line, kind } => Fault::Syntax { file, line, kind },
        DocFault::NoId { line } => Fault::NoId { file, line },
        DocFault::ShortGroup { line } => Fault::ShortGroup { file, line },
        DocFault::NoMemory => Fault::NoMemory,
    }
}

/// The axioms of the document, and the first lines of the report.
fn merged(
    alloc: Global,
    hash_key: HashKey,
    size: u32,
    bytes: u64,
    source: SourceFile,
) -> Result<Work, Fault>
    requires bytes { bytes ≡ length (generated size) }
    ensures ends { MergedEnds size source result }
    ensures forms { IfOk result HasForms }
{
    let (ontology, note) = merge_file(alloc, hash_key, &source)?;
    let frames = note.frames;
    drop(note);
    let SourceFile { name, document } = source;
    drop(document);
    let files = only(alloc, name)?;
    let entries = first_entries(alloc, size, frames, bytes, &ontology)?;
    Ok(Work {
        ontology,
        files,
        entries,
    })
}

/// The list of one name.
fn only(alloc: Global, name: Bytes) -> Result<Items<Bytes>, NoMemory>
    ensures { IfOk result (λ names. names ≡ name ∷ []) }
{
    let mut names = Vec::new(alloc);
    names.push(name)?;
    Ok(Items::from_vec(names))
}

/// The first lines of the report.
fn first_entries(
    alloc: Global,
    size: u32,
    frames: u64,
    bytes: u64,
    ontology: &Ontology,
) -> Result<Items<Entry>, Fault>
    ensures made { IfOk result (λ made. made ≡ entry.Generated size frames bytes ∷ entry.Merged (counts_of (axioms_of ontology.now.entries)) ∷ []) }
    ensures memory { IfErr result (λ one. one ≡ fault.NoMemory) }
{
    let first = Entry::Generated {
        n: size,
        frames,
        bytes,
    };
    let entries = noted(Items::from_vec(Vec::new(alloc)), first)?;
    noted(entries, Entry::Merged(counts_of(ontology)))
}
