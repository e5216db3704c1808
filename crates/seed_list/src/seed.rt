//! `read_seed`: the seed of a term file.
ghost use Rattle.std.specs.Prelude.{◌≡◌, ◌+◌, ◌^◌, ◌<◌, IfOk, OnOk, length};
ghost use Rattle.std.specs.List.{flat_map};
ghost use Rattle.owl_axioms.specs.Signature.{add_name, added, no_names};
ghost use Rattle.text_sets.specs.Sorted.{sorted_by};
ghost use Rattle.seed_list.specs.Seed.{IsSeedOf, ReadsSeed, names_of};
ghost use Rattle.seed_list.specs.declared.seed.SeedFault.TheVariants as fault;

use crate::terms::read_iris;
use hash_key::HashKey;
use owl_axioms::{Kind, Name, Sig};
use rel_io::{Bytes, Dup, Iri, Items, NoMemory};
use std::alloc::{AllocFailed, Global};

/// The entities from which a module is extracted.
#[derive(Drop)]
pub struct Seed {
    /// Of each IRI the class, the role and the individual.
    pub sig: Sig,
    /// The IRIs in the order of their bytes, each once.
    pub iris: Items<Iri>,
}

/// Why a term file gives no seed.
#[derive(Clone, Copy, Debug, PartialEq, Eq)]
pub enum SeedFault {
    /// The least line, from 1, that is none of a term file, or is one too many.
    SeedLine { line: u32 },
    /// No line has a term.
    EmptySeed,
    /// Memory ran out.
    NoMemory,
}

impl Dup for SeedFault {
    fn copy(&self, _alloc: Global) -> Result<SeedFault, NoMemory> {
        Ok(*self)
    }
}

impl From<NoMemory> for SeedFault {
    ghost from_gives = { λ _ made. made ≡ fault.NoMemory };

    fn from(_: NoMemory) -> SeedFault {
        SeedFault::NoMemory
    }
}

impl<T: Drop> From<AllocFailed<T>> for SeedFault {
    ghost from_gives = { λ _ made. made ≡ fault.NoMemory };

    fn from(_: AllocFailed<T>) -> SeedFault {
        SeedFault::NoMemory
    }
}

/// The seed of a term file with at most so many lines, where terms are read as ids in an ontology of this name; or the least
/// line that is refused; or else that there is no term. It takes the time of a sort of the terms.
pub fn read_seed(
    alloc: Global,
    hash_key: HashKey,
    bytes: &Bytes,
    ontology: &Bytes,
    lines: u32,
) -> Result<Seed, SeedFault>
    requires { length bytes.now + 1 < 2 ^ 32 }
    ensures { ReadsSeed ontology.now lines bytes.now result }
{
    let iris = read_iris(alloc, bytes.as_slice(), ontology, lines)?;
    if iris.as_slice().is_empty() {
        return Err(SeedFault::EmptySeed);
    }
    let seed = seed_of(alloc, hash_key, iris.into_vec())?;
    Ok(seed)
}

/// The seed of these IRIs.
fn seed_of(alloc: Global, hash_key: HashKey, iris: Vec<Iri>) -> Result<Seed, NoMemory>
    ensures { IfOk result (IsSeedOf iris.items) }
{
    let iris = sorted(iris);
    let sig = sig_of(alloc, hash_key, iris.as_slice())?;
    Ok(Seed {
        sig,
        iris: Items::from_vec(iris),
    })
}

/// The IRIs in the order of their bytes, each once.
fn sorted(iris: Vec<Iri>) -> Vec<Iri>
    ensures { result.items ≡ sorted_by (λ iri. iri) iris.items }
{
    let mut kept = iris;
    kept.sort_unstable();
    kept.dedup();
    kept
}

/// The class, the role and the individual of each IRI.
fn sig_of(alloc: Global, hash_key: HashKey, iris: &[Iri]) -> Result<Sig, NoMemory>
    ensures { IfOk result (λ sig. sig ≡ added no_names (flat_map names_of iris.now)) }
{
    let mut sig = Sig::new(alloc, hash_key)?;
    for iri in iris {
        add_names(alloc, &mut sig, iri)?;
    }
    Ok(sig)
}

/// Adds the class, the role and the individual of an IRI.
#[tactic(auto, unfolding(owl_axioms::specs::Signature::added))]
fn add_names(alloc: Global, sig: &mut Sig, iri: &Iri) -> Result<(), NoMemory>
    ensures { OnOk result (sig.new ≡ added sig.old (names_of iri.now)) }
{
    add_name(alloc, sig, Kind::Class, iri)?;
    add_name(alloc, sig, Kind::Role, iri)?;
    add_name(alloc, sig, Kind::Individual, iri)
}

/// Adds a name.
fn add_name(alloc: Global, sig: &mut Sig, kind: Kind, iri: &Iri) -> Result<(), NoMemory>
    ensures { OnOk result (sig.new ≡ add_name sig.old kind iri.now) }
{
    let name = Name {
        kind,
        iri: iri.copy(alloc)?,
    };
    sig.add(&name)?;
    Ok(())
}
