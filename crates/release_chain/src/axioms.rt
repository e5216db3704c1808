//! The steps that change axioms by themselves: relax and reduce.
ghost use Rattle.std.specs.Prelude.{IfOk, Ok};
ghost use Rattle.release_chain.specs.Answer.{AnswersAs};
ghost use Rattle.release_chain.specs.Trace.{Trace};
ghost use Rattle.release_chain.specs.Steps.{reduced_trace, relaxed_trace};
ghost use Rattle.release_chain.specs.inner.Work.{HasForms, IsAt};

use crate::work::{Work, noted};
use reduce_edges::reduce;
use relax_axioms::relax;
use release_report::{Entry, Fault};
use std::alloc::Global;
use step_spelling::{reducing_keeps_spelling, relaxing_keeps_spelling};

/// Adds the inclusions that definitions imply.
pub fn relaxed(alloc: Global, work: Work) -> Result<Work, Fault>
    requires forms { HasForms work }
    ensures answer { (trace : Trace) → IsAt work trace → AnswersAs IsAt (Ok (relaxed_trace trace)) result }
    ensures forms { IfOk result HasForms }
{
    let Work {
        ontology,
        files,
        entries,
    } = work;
    let mut ontology = ontology;
    relaxing_keeps_spelling();
    let added = relax(alloc, &mut ontology)?;
    let entries = noted(entries, Entry::Relaxed { added })?;
    Ok(Work {
        ontology,
        files,
        entries,
    })
}

/// Drops the inclusions that others make redundant.
pub fn reduced(alloc: Global, keep: bool, work: Work) -> Result<Work, Fault>
    requires forms { HasForms work }
    ensures answer { (trace : Trace) → IsAt work trace → AnswersAs IsAt (Ok (reduced_trace keep trace)) result }
    ensures forms { IfOk result HasForms }
{
    let Work {
        ontology,
        files,
        entries,
    } = work;
    let mut ontology = ontology;
    reducing_keeps_spelling();
    let removed = reduce(alloc, &mut ontology, keep)?;
    let entries = noted(entries, Entry::Reduced { removed })?;
    Ok(Work {
        ontology,
        files,
        entries,
    })
}
