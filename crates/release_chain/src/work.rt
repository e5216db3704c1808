//! What a run has come to.
ghost use Rattle.std.specs.Prelude.{◌≡◌, ◌∷◌, [], ◌++◌, IfErr, IfOk};
ghost use Rattle.release_report.specs.declared.fault.Fault.TheVariants as fault;

use owl_ontology::Ontology;
use rel_io::{Bytes, Items};
use release_report::{Entry, Fault};

/// The axioms, where they come from, and the report so far.
#[derive(Drop)]
pub struct Work {
    /// The axioms.
    pub ontology: Ontology,
    /// The names of the files of the run, to which origins lead.
    pub files: Items<Bytes>,
    /// The report so far.
    pub entries: Items<Entry>,
}

/// The report with one entry more.
pub fn noted(entries: Items<Entry>, entry: Entry) -> Result<Items<Entry>, Fault>
    ensures made { IfOk result (λ made. made ≡ entries ++ entry ∷ []) }
    ensures memory { IfErr result (λ one. one ≡ fault.NoMemory) }
{
    let mut list = entries.into_vec();
    match list.push(entry) {
        Ok(()) => Ok(Items::from_vec(list)),
        Err(_) => {
            drop(list);
            Err(Fault::NoMemory)
        }
    }
}
