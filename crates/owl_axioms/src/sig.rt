//! `Sig`: a set of names, each of a class, a role or an individual.
ghost use Rattle.std.specs.Prelude.{◌≡◌, not, ◌&&◌, IfOk, OnErr, OnOk, length, take};
ghost use Rattle.owl_axioms.specs.Names.{has_meaning};
ghost use Rattle.owl_axioms.specs.Signature.{SigState, add_name, has_text, name_count, no_names, scope_of, with_text};
ghost use Rattle.owl_axioms.specs.inner.Growth.{IsMore};

use crate::{Kind, Name};
use hash_key::HashKey;
use indexmap::IndexSet;
use rel_io::{Dup, Iri, NoMemory};
use std::alloc::Global;
use std::marker::Model;

/// A signature: seen as the names of each kind, in the order in which they came, each once. It has no annotation
/// properties, of which models say nothing.
#[derive(Drop)]
pub struct Sig {
    alloc: Global,
    classes: IndexSet<Iri, HashKey>,
    roles: IndexSet<Iri, HashKey>,
    individuals: IndexSet<Iri, HashKey>,
}

impl Model for Sig {
    ghost use Rattle.owl_axioms.specs.Signature.{SigState};

    ghost Value = { SigState };

    ghost view = { λ s. record { classes = s.classes.keys; roles = s.roles.keys; individuals = s.individuals.keys } };
}

impl Sig {
    /// A signature without names. It keeps the allocator for the names to come.
    pub fn new(alloc: Global, hash_key: HashKey) -> Result<Sig, NoMemory>
        ensures { IfOk result (λ s. s ≡ no_names) }
    {
        Ok(Sig {
            alloc,
            classes: IndexSet::with_hasher(alloc, hash_key),
            roles: IndexSet::with_hasher(alloc, hash_key),
            individuals: IndexSet::with_hasher(alloc, hash_key),
        })
    }

    /// Adds a name, and says whether it is new. An annotation property is none that a signature has. Where no
    /// memory is left, nothing has happened.
    pub fn add(&mut self, name: &Name) -> Result<bool, NoMemory>
        ensures names { OnOk result (self.new ≡ add_name self.old name.now.kind name.now.iri) }
        ensures is_new { IfOk result (λ is_new. is_new ≡ (has_meaning name.now.kind && not (scope_of self.old name.now.kind name.now.iri))) }
        ensures unchanged { OnErr result (self.new ≡ self.old) }
    {
        self.put_name(name.kind, &name.iri)
    }

    /// Whether a name is there.
    pub fn has(&self, kind: Kind, iri: &Iri) -> bool
        ensures { result ≡ scope_of self.now kind iri.now }
    {
        match kind {
            Kind::Class => self.classes.contains(iri),
            Kind::Role => self.roles.contains(iri),
            Kind::Individual => self.individuals.contains(iri),
            Kind::AnnotationProperty => false,
        }
    }

    /// How many names there are.
    pub fn len(&self) -> usize
        ensures { result ≡ name_count self.now }
    {
        self.classes.as_slice().len()
            + self.roles.as_slice().len()
            + self.individuals.as_slice().len()
    }

    /// Adds a name of this kind, and says whether it is new.
    fn put_name(&mut self, kind: Kind, iri: &Iri) -> Result<bool, NoMemory>
        ensures names { OnOk result (self.new ≡ add_name self.old kind iri.now) }
        ensures is_new { IfOk result (λ is_new. is_new ≡ (has_meaning kind && not (scope_of self.old kind iri.now))) }
        ensures unchanged { OnErr result (self.new ≡ self.old) }
    {
        match kind {
            Kind::Class => put(&mut self.classes, iri.copy(self.alloc)?),
            Kind::Role => put(&mut self.roles, iri.copy(self.alloc)?),
            Kind::Individual => put(&mut self.individuals, iri.copy(self.alloc)?),
            Kind::AnnotationProperty => Ok(false),
        }
    }

    /// Adds a name of this kind. Even where no memory is left, what the signature began with stays.
    pub(crate) fn put(&mut self, kind: Kind, iri: &Iri) -> Result<bool, NoMemory>
        ensures grows { (t : SigState) → IsMore t self.old → IsMore t self.new }
        ensures names { OnOk result (self.new ≡ add_name self.old kind iri.now) }
    {
        self.put_name(kind, iri)
    }

    /// How many classes, roles and individuals there are.
    pub(crate) fn sizes(&self) -> Sizes
        ensures { result ≡ record { classes = length self.now.classes; roles = length self.now.roles; individuals = length self.now.individuals } }
    {
        Sizes {
            classes: self.classes.len(),
            roles: self.roles.len(),
            individuals: self.individuals.len(),
        }
    }

    /// Goes back to the first names of each kind.
    pub(crate) fn cut(&mut self, sizes: Sizes)
        ensures { self.new ≡ record { classes = take sizes.classes self.old.classes; roles = take sizes.roles self.old.roles; individuals = take sizes.individuals self.old.individuals } }
    {
        self.classes.truncate(sizes.classes);
        self.roles.truncate(sizes.roles);
        self.individuals.truncate(sizes.individuals);
    }
}

/// How many names of each kind a signature has.
#[derive(Clone, Copy)]
pub(crate) struct Sizes {
    classes: usize,
    roles: usize,
    individuals: usize,
}

impl Dup for Sig {
    fn copy(&self, alloc: Global) -> Result<Sig, NoMemory> {
        let classes = copy_set(alloc, &self.classes)?;
        let roles = copy_set(alloc, &self.roles)?;
        let individuals = copy_set(alloc, &self.individuals)?;
        Ok(Sig {
            alloc,
            classes,
            roles,
            individuals,
        })
    }
}

/// Adds an IRI to a set, and says whether it is new.
fn put(set: &mut IndexSet<Iri, HashKey>, iri: Iri) -> Result<bool, NoMemory>
    ensures keys { OnOk result (set.new.keys ≡ with_text set.old.keys iri) }
    ensures is_new { IfOk result (λ is_new. is_new ≡ not (has_text set.old.keys iri)) }
    ensures unchanged { OnErr result (set.new.keys ≡ set.old.keys) }
{
    Ok(set.insert(iri)?)
}

/// A set of the same IRIs, in the same order.
fn copy_set(alloc: Global, set: &IndexSet<Iri, HashKey>) -> Result<IndexSet<Iri, HashKey>, NoMemory>
    ensures { IfOk result (λ twin. twin.keys ≡ set.now.keys) }
{
    let mut twin = IndexSet::with_hasher(alloc, *set.hasher());
    for at in 0..set.len() {
        let iri = set.get_index(at).unwrap();
        let copied = iri.copy(alloc)?;
        put(&mut twin, copied)?;
    }
    Ok(twin)
}
