//! The part of the logical axioms that a method chooses.
ghost use Rattle.std.specs.Prelude.{◌≡◌, ◌<◌, IfOk};
ghost use Rattle.extract_step.specs.Extract.{chosen};
ghost use Rattle.module_extract.specs.Least.{module_of};
ghost use Rattle.module_extract.specs.Module.{fills_of, logical_flags};
ghost use Rattle.owl_axioms.specs.Signature.{scope_of};
ghost use Rattle.owl_ontology.specs.Ontology.{axioms_of};
ghost use Rattle.star_module.specs.Star.{bottom_and_top};
ghost use Rattle.star_module.specs.StarOf.{star_of};

use chain_words::Method;
use locality_bot::Bot;
use locality_core::Locality;
use locality_top::Top;
use module_extract::{logical, module};
use owl_axioms::Sig;
use owl_ontology::Ontology;
use rel_io::{NoMemory, Steps};
use star_module::star;
use std::alloc::Global;
use std::sync::ledger::{Blank, Ledger};

/// What a method chooses for a signature: a flag for each axiom, and the number of rounds.
#[tactic(auto, unfolding(crate::specs::Extract::chosen))]
pub fn chosen<G: Ledger>(
    alloc: Global,
    ontology: &Ontology,
    method: Method,
    sig: &Sig,
    blank: Blank,
) -> Result<(Vec<bool>, u64), NoMemory>
    requires name { blank.name ≡ G.name }
    requires parts { blank.parts ≡ G.parts }
    requires some { 0 < blank.parts }
    ensures kept { IfOk result (λ made. made.0.items ≡ (chosen method (scope_of sig.now) (axioms_of ontology.now.entries)).0) }
    ensures rounds { IfOk result (λ made. made.1 ≡ (chosen method (scope_of sig.now) (axioms_of ontology.now.entries)).1) }
{
    let mut steps = Steps::<G>::new(blank);
    match method {
        Method::Bot => single::<Bot, G>(alloc, ontology, sig, &mut steps),
        Method::Top => single::<Top, G>(alloc, ontology, sig, &mut steps),
        Method::Star => alternation(alloc, ontology, sig, &mut steps),
    }
}

/// The module of one kind of locality, which takes one round.
fn single<L: Locality, G: Ledger>(
    alloc: Global,
    ontology: &Ontology,
    sig: &Sig,
    steps: &mut Steps<G>,
) -> Result<(Vec<bool>, u64), NoMemory>
    ensures kept { IfOk result (λ made. made.0.items ≡ module_of (fills_of L.CLASSES L.ROLES) (axioms_of ontology.now.entries) (logical_flags (axioms_of ontology.now.entries)) (scope_of sig.now)) }
    ensures rounds { IfOk result (λ made. made.1 ≡ 1) }
{
    let part = logical(alloc, ontology)?;
    let kept = module::<L, G>(alloc, ontology, &part, sig, steps)?;
    Ok((kept, 1))
}

/// What the alternation of the two kinds comes to.
fn alternation<G: Ledger>(
    alloc: Global,
    ontology: &Ontology,
    sig: &Sig,
    steps: &mut Steps<G>,
) -> Result<(Vec<bool>, u64), NoMemory>
    ensures kept { IfOk result (λ made. made.0.items ≡ (star_of bottom_and_top (axioms_of ontology.now.entries) (scope_of sig.now) (logical_flags (axioms_of ontology.now.entries))).0) }
    ensures rounds { IfOk result (λ made. made.1 ≡ (star_of bottom_and_top (axioms_of ontology.now.entries) (scope_of sig.now) (logical_flags (axioms_of ontology.now.entries))).1) }
{
    let part = star(alloc, ontology, sig, steps)?;
    Ok((part.kept.into_vec(), part.rounds))
}
