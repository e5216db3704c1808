//! What the translation of a document gives, and its reports.
ghost use Rattle.std.specs.Prelude.{◌≡◌, IfOk, map};
ghost use Rattle.text_sets.specs.Sorted.{sorted_by};
ghost use Rattle.obo_to_owl.specs.Reports.{report_key, report_of};
ghost use Rattle.obo_to_owl.specs.inner.Rows.{clause_of};

use crate::rows::Row;
use owl_ontology::Ontology;
use rel_io::{Bytes, Dup, Items, NoMemory};
use std::alloc::Global;

/// A report that a clause is not translated.
#[derive(PartialEq, Eq, PartialOrd, Ord, Drop)]
pub struct Dropped {
    /// The line of the clause.
    pub line: u32,
    /// Its tag.
    pub tag: Bytes,
}

impl Dup for Dropped {
    fn copy(&self, alloc: Global) -> Result<Dropped, NoMemory> {
        let tag = self.tag.copy(alloc)?;
        Ok(Dropped {
            line: self.line,
            tag,
        })
    }
}

/// The axioms of a document, and the clauses that have none.
#[derive(Drop)]
pub struct Translated {
    /// The axioms, under the document's name.
    pub ontology: Ontology,
    /// The clauses that are not translated, by line.
    pub dropped: Items<Dropped>,
}

/// The reports of clauses, by line and tag, each once.
pub fn reports(alloc: Global, left: &[Row]) -> Result<Items<Dropped>, NoMemory>
    ensures { IfOk result (λ reports. reports ≡ sorted_by report_key (map report_of (map clause_of left.now))) }
{
    let reports = each_report(alloc, left)?;
    Ok(Items::from_vec(once(reports)))
}

/// The reports of clauses, in their order.
fn each_report(alloc: Global, left: &[Row]) -> Result<Vec<Dropped>, NoMemory>
    ensures { IfOk result (λ reports. reports.items ≡ map report_of (map clause_of left.now)) }
{
    let mut reports = Vec::with_capacity(alloc, left.len())?;
    for row in left {
        let tag = row.placed.clause.tag.copy(alloc)?;
        let line = row.placed.line;
        reports.push(Dropped { line, tag })?;
    }
    Ok(reports)
}

/// The reports in their order, each once.
fn once(reports: Vec<Dropped>) -> Vec<Dropped>
    ensures { result.items ≡ sorted_by report_key reports.items }
{
    let mut reports = reports;
    reports.sort_unstable();
    reports.dedup();
    reports
}
