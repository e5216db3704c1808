//! Sets of IRIs.
ghost use Rattle.std.specs.Prelude.{◌≡◌, ◌||◌, ℕ, List, OnOk};
ghost use Rattle.std.specs.Str.{bytes_eq};
ghost use Rattle.obo_to_owl.specs.inner.Known.{has};

use hash_key::HashKey;
use indexmap::IndexSet;
use rel_io::{Dup, Iri, NoMemory};
use std::alloc::Global;

/// Whether the IRI is in the set.
pub fn has(set: &IndexSet<Iri, HashKey>, iri: &Iri) -> bool
    ensures { result ≡ has set.now iri.now }
{
    set.contains(iri)
}

/// Adds an IRI to a set.
pub fn add(alloc: Global, set: &mut IndexSet<Iri, HashKey>, iri: &Iri) -> Result<(), NoMemory>
    ensures { OnOk result ((x : List ℕ) → has set.new x ≡ (bytes_eq x iri.now || has set.old x)) }
{
    let iri = iri.copy(alloc)?;
    set.insert(iri)?;
    Ok(())
}
