//! `extract`: all decisions are made on the ontology as it is, and then what is not shipped is dropped.
ghost use Rattle.std.specs.Prelude.{◌≡◌, IfOk, OnErr};
ghost use Rattle.extract_step.specs.Extract.{chosen, extracted};
ghost use Rattle.extract_step.specs.Known.{unknown_count};
ghost use Rattle.owl_axioms.specs.Signature.{scope_of};
ghost use Rattle.owl_ontology.specs.Ontology.{axioms_of};
ghost use Rattle.owl_sem.specs.Models.{Keeps};

use crate::choosing::chosen;
use crate::known::unknown;
use chain_words::Method;
use module_extract::shipped;
use owl_ontology::Ontology;
use rel_io::{Dup, NoMemory};
use seed_list::Seed;
use std::alloc::Global;
use std::marker::Brand;
use std::sync::ledger::Blank;

/// What there is to say of an extract.
#[derive(Clone, Copy, Debug, PartialEq, Eq)]
pub struct Extracted {
    /// How many IRIs of the seed no declaration and no logical axiom has.
    pub unknown: u64,
    /// How many pairs of modules were made, the last one too; and 1 for a single module.
    pub rounds: u64,
}

impl Dup for Extracted {
    fn copy(&self, _alloc: Global) -> Result<Extracted, NoMemory> {
        Ok(*self)
    }
}

/// Leaves of an ontology what the method chooses for the seed, with what is shipped with it, in its order and with its
/// origins. Each finite model of what is left agrees over the seed with a model of what was there. Where no memory is left,
/// nothing has happened.
pub fn extract(
    alloc: Global,
    ontology: &mut Ontology,
    method: Method,
    seed: &Seed,
) -> Result<Extracted, NoMemory>
    ensures extracted { IfOk result (λ said. ontology.new ≡ extracted method seed.now ontology.old) }
    ensures unknown { IfOk result (λ said. said.unknown ≡ unknown_count (axioms_of ontology.old.entries) seed.now.iris) }
    ensures rounds { IfOk result (λ said. said.rounds ≡ (chosen method (scope_of seed.now.sig) (axioms_of ontology.old.entries)).1) }
    ensures keeps { IfOk result (λ said. Keeps (axioms_of ontology.old.entries) (axioms_of ontology.new.entries) (scope_of seed.now.sig)) }
    ensures unchanged { OnErr result (ontology.new ≡ ontology.old) }
{
    let unknown = unknown(alloc, ontology, seed.iris.as_slice())?;
    let (kept, rounds) = chosen::<Brand>(alloc, ontology, method, &seed.sig, Blank::new(1))?;
    let flags = shipped(alloc, ontology, &kept, &seed.sig)?;
    ontology.keep(&flags);
    Ok(Extracted {
        unknown: unknown as u64,
        rounds,
    })
}
