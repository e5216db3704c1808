//! The output of a step.
ghost use Rattle.std.specs.Prelude.{◌≡◌, ℕ, List, IfErr, IfOk, Ok, slice_get, unwrap_or};
ghost use Rattle.rel_io.specs.FolderState.{NoCountFell};
ghost use Rattle.chain_words.specs.declared.command.Output.{Output as Wanted};
ghost use Rattle.owl_ontology.specs.Ontology.{axioms_of};
ghost use Rattle.owl_ontology.specs.declared.origin.Origin.{Origin};
ghost use Rattle.obo_mapping.specs.Back.{IsSpellable};
ghost use Rattle.obo_mapping.specs.TwoValues.{two_values};
ghost use Rattle.obo_writer.specs.Text as obo;
ghost use Rattle.release_report.specs.declared.fault.Fault.TheVariants as fault;
ghost use Rattle.release_chain.specs.Answer.{AnswersAs};
ghost use Rattle.release_chain.specs.Ending.{Caused, Ends};
ghost use Rattle.release_chain.specs.Outputs.{Fits, Made, text_of};
ghost use Rattle.release_chain.specs.Part.{puts};
ghost use Rattle.release_chain.specs.Steps as spec;
ghost use Rattle.release_chain.specs.Trace.{Trace};
ghost use Rattle.release_chain.specs.Steps.{none_or, output_part, with_written, write_part};
ghost use Rattle.release_chain.specs.inner.Work.{HasForms, IsAt};
ghost use Rattle.release_chain.specs.inner.Texts.{TextAnswers, BlamesFiles, IsBackFault, TextsOf};

use crate::work::{Work, noted};
use chain_words::{Format, Output};
use obo_writer::obo_text;
use ofn_writer::ofn_text;
use owl_ontology::{Ontology, Origin};
use owl_to_obo::BackFault;
use rel_io::{Bytes, Dup, Folder, PutFault};
use release_report::{Entry, Fault};
use std::alloc::Global;

/// The text of axioms for a file.
fn text_for(alloc: Global, work: &Work, file: &Output) -> Result<Bytes, Fault>
    requires forms { HasForms work.now }
    ensures { TextAnswers file.now work.now result }
{
    match file.format {
        Format::Obo => obo_for(alloc, &work.ontology, work.files.as_slice(), file.check),
        Format::Ofn => Ok(ofn_text(alloc, &work.ontology)?),
    }
}

/// The OBO text of axioms, where the files have these names.
pub fn obo_for(
    alloc: Global,
    ontology: &Ontology,
    files: &[Bytes],
    check: bool,
) -> Result<Bytes, Fault>
    requires forms { IsSpellable ontology.now.name (axioms_of ontology.now.entries) }
    ensures { TextsOf files.now ontology.now check result }
{
    match obo_text(alloc, ontology, check) {
        Ok(text) => Ok(text),
        Err(fault) => Err(back_fault(alloc, files, fault)),
    }
}

/// The fault of two values that one frame would have.
fn back_fault(alloc: Global, files: &[Bytes], fault: BackFault) -> Fault
    ensures { IsBackFault files.now fault result }
{
    match fault {
        BackFault::NoMemory => Fault::NoMemory,
        BackFault::TwoValues {
            iri,
            tag,
            first,
            second,
            first_at,
            second_at,
        } => {
            let names = both_files(alloc, files, first_at, second_at);
            match names {
                Ok((first_file, second_file)) => Fault::TwoValues {
                    iri,
                    tag,
                    first,
                    second,
                    first_file,
                    first_line: first_at.line,
                    second_file,
                    second_line: second_at.line,
                },
                Err(fault) => {
                    drop(iri);
                    drop(tag);
                    drop(first);
                    drop(second);
                    fault
                }
            }
        }
    }
}

/// The names of the files to which two origins lead.
fn both_files(
    alloc: Global,
    files: &[Bytes],
    first: Origin,
    second: Origin,
) -> Result<(Bytes, Bytes), Fault>
    ensures { BlamesFiles files.now first second result }
{
    let first_file = file_at(alloc, files, first)?;
    let second_file = file_at(alloc, files, second)?;
    Ok((first_file, second_file))
}

/// The name of the file to which an origin leads.
pub fn file_at(alloc: Global, files: &[Bytes], origin: Origin) -> Result<Bytes, Fault>
    ensures made { IfOk result (λ name. name ≡ spec.file_at files.now origin) }
    ensures memory { IfErr result (λ one. one ≡ fault.NoMemory) }
{
    match files.get(origin.file as usize) {
        Some(name) => Ok(name.copy(alloc)?),
        None => Ok(Bytes::from_vec(Vec::new(alloc))),
    }
}

/// Writes a file.
fn put_file<F: Folder>(
    alloc: Global,
    folder: &mut F,
    name: &Bytes,
    bytes: &[u8],
) -> Result<(), Fault>
    ensures caused { Caused result (F.state folder.old) (F.state folder.new) }
    ensures counts { NoCountFell (F.state folder.old) (F.state folder.new) }
    ensures ends { (made : Made) → Fits made bytes.now → Ends (λ (_ _ : Unit {0}). Unit {0}) (puts (record { name = name.now; made = made })) result (F.state folder.old).holds (F.state folder.new).holds }
{
    let faulty = name.copy(alloc)?;
    match folder.put(name.as_slice(), bytes) {
        Ok(()) => {
            drop(faulty);
            Ok(())
        }
        Err(PutFault::Failed) => Err(Fault::WriteFault { name: faulty }),
        Err(PutFault::NoMemory) => {
            drop(faulty);
            Err(Fault::NoMemory)
        }
    }
}

/// The state with a file more in the report.
fn with_written(alloc: Global, name: &Bytes, bytes: &Bytes, work: Work) -> Result<Work, Fault>
    requires forms { HasForms work }
    ensures answer { (trace : Trace) (file : Wanted) → file.name ≡ name.now → bytes.now ≡ text_of file.format trace.ontology → IsAt work trace → AnswersAs IsAt (Ok (with_written file trace)) result }
    ensures forms { IfOk result HasForms }
{
    let Work {
        ontology,
        files,
        entries,
    } = work;
    let name = name.copy(alloc)?;
    let size = bytes.as_slice().len() as u64;
    let entries = noted(entries, Entry::Written { name, bytes: size })?;
    Ok(Work {
        ontology,
        files,
        entries,
    })
}

/// Writes the axioms to a file.
fn write_axioms<F: Folder>(
    alloc: Global,
    folder: &mut F,
    file: &Output,
    work: Work,
) -> Result<Work, Fault>
    requires forms { HasForms work }
    ensures caused { Caused result (F.state folder.old) (F.state folder.new) }
    ensures counts { NoCountFell (F.state folder.old) (F.state folder.new) }
    ensures forms { IfOk result HasForms }
    ensures ends { (trace : Trace) → IsAt work trace → Ends IsAt (write_part file.now trace) result (F.state folder.old).holds (F.state folder.new).holds }
{
    let bytes = text_for(alloc, &work, file)?;
    put_file(alloc, folder, &file.name, bytes.as_slice())?;
    with_written(alloc, &file.name, &bytes, work)
}

/// Writes the output of a step, if it has one.
pub fn put_output<F: Folder>(
    alloc: Global,
    folder: &mut F,
    output: &Option<Output>,
    work: Work,
) -> Result<Work, Fault>
    requires forms { HasForms work }
    ensures caused { Caused result (F.state folder.old) (F.state folder.new) }
    ensures counts { NoCountFell (F.state folder.old) (F.state folder.new) }
    ensures forms { IfOk result HasForms }
    ensures ends { (trace : Trace) → IsAt work trace → Ends IsAt (output_part output.now trace) result (F.state folder.old).holds (F.state folder.new).holds }
{
    match output {
        None => Ok(work),
        Some(file) => write_axioms(alloc, folder, file, work),
    }
}
