//! Pairs of modules, until one drops nothing.
ghost use Rattle.std.specs.Prelude.{◌≡◌, ◌≤◌, ◌+◌, ◌*◌, if◌then◌else◌, IfOk, length};
ghost use Rattle.module_extract.specs.Module.{IsPart, logical_flags, on_count, seed_and};
ghost use Rattle.module_extract.specs.Tests.{test_bound};
ghost use Rattle.owl_axioms.specs.Signature.{scope_of};
ghost use Rattle.owl_ontology.specs.Ontology.{axioms_of, flagged};
ghost use Rattle.owl_sem.specs.Models.{Keeps};
ghost use Rattle.star_module.specs.Star.{IsEnd, IsRound, bottom_and_top};

use locality_bot::Bot;
use locality_top::Top;
use module_extract::{logical, module};
use owl_axioms::Sig;
use owl_ontology::Ontology;
use rel_io::{Dup, Items, NoMemory, Steps};
use std::alloc::Global;
use std::sync::ledger::Ledger;

/// What the alternation comes to.
#[derive(Drop)]
pub struct StarPart {
    /// Of each axiom whether it is kept.
    pub kept: Items<bool>,
    /// The number of pairs of modules that were made, the last one too.
    pub rounds: u64,
}

impl Dup for StarPart {
    fn copy(&self, alloc: Global) -> Result<StarPart, NoMemory> {
        let kept = self.kept.copy(alloc)?;
        Ok(StarPart {
            kept,
            rounds: self.rounds,
        })
    }
}

/// The alternation of bottom and top modules of the logical axioms until nothing is dropped. Each model of what is kept
/// agrees over the signature and its names with a model of the logical axioms. Each round tests each logical axiom twice
/// at most, and again twice at most for each of its names.
pub fn star<G: Ledger>(
    alloc: Global,
    ontology: &Ontology,
    sig: &Sig,
    steps: &mut Steps<G>,
) -> Result<StarPart, NoMemory>
    ensures exact { IfOk result (λ s. IsEnd bottom_and_top (axioms_of ontology.now.entries) (scope_of sig.now) (logical_flags (axioms_of ontology.now.entries)) s.rounds s.kept) }
    ensures few { IfOk result (λ s. s.rounds ≤ on_count (logical_flags (axioms_of ontology.now.entries)) + 1) }
    ensures keeps { IfOk result (λ s. Keeps (flagged (logical_flags (axioms_of ontology.now.entries)) (axioms_of ontology.now.entries)) (flagged s.kept (axioms_of ontology.now.entries))
        (seed_and (scope_of sig.now) (axioms_of ontology.now.entries) s.kept)) }
    ensures ticks { IfOk result (λ s. steps.new ≤ steps.old + s.rounds * (2 * test_bound (axioms_of ontology.now.entries) (logical_flags (axioms_of ontology.now.entries)))) }
    ensures most { steps.new ≤ steps.old + (on_count (logical_flags (axioms_of ontology.now.entries)) + 1) * (2 * test_bound (axioms_of ontology.now.entries) (logical_flags (axioms_of ontology.now.entries))) }
{
    let mut part = logical(alloc, ontology)?;
    let mut rounds: u64 = 0;
    'rounds: loop {
        let next = star_round(alloc, ontology, &part, sig, steps)?;
        rounds += 1;
        if count(&next) == count(&part) {
            return Ok(StarPart {
                kept: Items::from_vec(next),
                rounds,
            });
        }
        part = next;
    }
}

/// The top module of the bottom module.
fn star_round<G: Ledger>(
    alloc: Global,
    ontology: &Ontology,
    part: &Vec<bool>,
    sig: &Sig,
    steps: &mut Steps<G>,
) -> Result<Vec<bool>, NoMemory>
    requires { length part.now.items ≡ length ontology.now.entries }
    ensures round { IfOk result (λ next. IsRound bottom_and_top (axioms_of ontology.now.entries) (scope_of sig.now) part.now.items next.items) }
    ensures part { IfOk result (λ next. IsPart next.items part.now.items) }
    ensures ticks { steps.new ≤ steps.old + 2 * test_bound (axioms_of ontology.now.entries) part.now.items }
{
    let bottom = module::<Bot, G>(alloc, ontology, part, sig, steps)?;
    module::<Top, G>(alloc, ontology, &bottom, sig, steps)
}

/// How many axioms a part has.
fn count(flags: &Vec<bool>) -> usize
    ensures { result ≡ on_count flags.now.items }
{
    let mut set = 0;
    for at in 0..flags.len() {
        set += one(flags[at]);
    }
    set
}

/// One for a flag that is set.
fn one(flag: bool) -> usize
    ensures { result ≡ (if flag then 1 else 0) }
{
    if flag { 1 } else { 0 }
}
