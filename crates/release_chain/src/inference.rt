//! The step reason.
ghost use Rattle.std.specs.Prelude.{◌≡◌, ◌<◌, IfErr, IfOk, length, slice_get};
ghost use Rattle.release_report.specs.declared.fault.Fault.TheVariants as fault;
ghost use Rattle.release_chain.specs.Answer.{AnswersAs};
ghost use Rattle.release_chain.specs.Steps.{declared_name, fault_of_empty, reasoned_or};
ghost use Rattle.release_chain.specs.Trace.{Trace};
ghost use Rattle.release_chain.specs.inner.Inference.{IsRefusal, IsWithin};
ghost use Rattle.release_chain.specs.inner.Work.{HasForms, IsAt};

use crate::output::file_at;
use crate::work::{Work, noted};
use el_taxonomy::{ReasonFault, reason};
use owl_axioms::Body;
use owl_ontology::Ontology;
use plain_reasoning::reason_of_is_the_answer;
use rel_io::{Bytes, Dup, Iri, Limits, NoMemory};
use release_report::{Entry, Fault};
use std::alloc::Global;
use step_spelling::reasoning_keeps_spelling;

/// Adds the direct edges that follow and are missing.
pub fn reasoned(alloc: Global, work: Work) -> Result<Work, Fault>
    requires forms { HasForms work }
    ensures answer { (trace : Trace) → IsAt work trace → AnswersAs IsAt (reasoned_or trace) result }
    ensures forms { IfOk result HasForms }
{
    let Work {
        ontology,
        files,
        entries,
    } = work;
    let mut ontology = ontology;
    reasoning_keeps_spelling();
    reason_of_is_the_answer();
    match reason(alloc, &mut ontology, Limits::release().facts) {
        Ok(said) => {
            let entry = Entry::Reasoned {
                added: said.added,
                unused: said.unused,
            };
            let entries = noted(entries, entry)?;
            Ok(Work {
                ontology,
                files,
                entries,
            })
        }
        Err(fault) => {
            let refusal = refused(alloc, &ontology, files.as_slice(), fault);
            drop(ontology);
            Err(refusal)
        }
    }
}

/// The fault of a step that is refused, where the files have these names.
fn refused(alloc: Global, ontology: &Ontology, files: &[Bytes], fault: ReasonFault) -> Fault
    requires within { IsWithin ontology.now fault }
    ensures { IsRefusal files.now ontology.now fault result }
{
    match fault {
        ReasonFault::Unsatisfiable { at } => match empty_class(alloc, ontology, files, at) {
            Ok(fault) => fault,
            Err(fault) => fault,
        },
        ReasonFault::TooManyFacts { limit } => Fault::TooManyFacts { limit },
        ReasonFault::NoMemory => Fault::NoMemory,
    }
}

/// The fault of a class that nothing can be in, by the place of its declaration.
fn empty_class(
    alloc: Global,
    ontology: &Ontology,
    files: &[Bytes],
    at: usize,
) -> Result<Fault, Fault>
    requires within { at < length ontology.now.entries }
    ensures told { IfOk result (λ one. one ≡ fault_of_empty files.now (slice_get ontology.now.entries at)) }
    ensures memory { IfErr result (λ one. one ≡ fault.NoMemory) }
{
    let origin = ontology.origin(at);
    let file = file_at(alloc, files, origin)?;
    let class = declared_name(alloc, &ontology.get(at).body)?;
    Ok(Fault::Unsatisfiable {
        class,
        file,
        line: origin.line,
    })
}

/// The IRI of what an axiom declares.
fn declared_name(alloc: Global, body: &Body) -> Result<Iri, NoMemory>
    ensures { IfOk result (λ made. made ≡ declared_name body.now) }
{
    match body {
        Body::Declaration(name) => name.iri.copy(alloc),
        _ => Iri::from_slice(alloc, b""),
    }
}
