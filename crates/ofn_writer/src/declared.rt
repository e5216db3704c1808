//! Which entities are declared.
ghost use Rattle.std.specs.Prelude.{◌≡◌, ◌||◌, ℕ, IfOk, List, OnOk};
ghost use Rattle.std.specs.Option.{option_copied};
ghost use Rattle.owl_axioms.specs.Signature.{with_text};
ghost use Rattle.owl_axioms.specs.declared.name.Kind.{Kind};
ghost use Rattle.owl_ontology.specs.Ontology.{axioms_of};
ghost use Rattle.ofn_writer.specs.Kinds as spec;
ghost use Rattle.ofn_writer.specs.inner.Declared.{declared_scope, one_if, scope_in, with_property};

use hash_key::HashKey;
use indexmap::IndexSet;
use owl_axioms::{Body, Kind, Name, Sig};
use owl_ontology::Ontology;
use rel_io::{Dup, Iri, NoMemory};
use std::alloc::Global;

/// The names that are declared. A signature has no annotation properties, so they stand beside it.
#[derive(Drop)]
pub struct Declared {
    /// Classes, roles and individuals.
    pub names: Sig,
    /// Annotation properties.
    pub properties: IndexSet<Iri, HashKey>,
}

impl Declared {
    /// Whether the IRI is declared as more than one kind.
    pub fn has_many_kinds(&self, iri: &Iri) -> bool
        ensures { result ≡ spec.has_many_kinds (declared_scope self.now) iri.now }
    {
        let kinds = one_if(self.has(Kind::Class, iri))
            + one_if(self.has(Kind::Role, iri))
            + one_if(self.has(Kind::Individual, iri))
            + one_if(self.has(Kind::AnnotationProperty, iri));
        kinds > 1
    }

    /// Whether the IRI is declared as this kind.
    fn has(&self, kind: Kind, iri: &Iri) -> bool
        ensures { result ≡ declared_scope self.now kind iri.now }
    {
        match kind {
            Kind::AnnotationProperty => self.properties.contains(iri),
            _ => self.names.has(kind, iri),
        }
    }
}

/// One, where a test is passed.
fn one_if(test: bool) -> u8
    ensures { result ≡ one_if test }
{
    if test { 1 } else { 0 }
}

/// What an ontology declares.
pub fn declared_names(alloc: Global, ontology: &Ontology) -> Result<Declared, NoMemory>
    ensures { IfOk result (λ found. (k : Kind) (iri : List ℕ) → declared_scope found k iri ≡ spec.declared (axioms_of ontology.now.entries) k iri) }
{
    let mut names = Sig::new(alloc, ontology.hash_key())?;
    let mut properties = IndexSet::with_hasher(alloc, ontology.hash_key());
    for at in 0..ontology.len() {
        push_declared(alloc, &mut names, &mut properties, &ontology.get(at).body)?;
    }
    Ok(Declared { names, properties })
}

/// Adds what an axiom declares.
fn push_declared(
    alloc: Global,
    names: &mut Sig,
    properties: &mut IndexSet<Iri, HashKey>,
    body: &Body,
) -> Result<(), NoMemory>
    ensures { OnOk result ((k : Kind) (iri : List ℕ) → scope_in names.new properties.new.keys k iri ≡ (scope_in names.old properties.old.keys k iri || spec.declares body.now k iri)) }
{
    match declared_name(body) {
        None => Ok(()),
        Some(name) => push_name(alloc, names, properties, name),
    }
}

/// The name that an axiom declares.
#[tactic(auto, unfolding(crate::specs::Kinds::declared_name))]
fn declared_name(body: &Body) -> Option<&Name>
    ensures { option_copied result ≡ spec.declared_name body.now }
{
    match body {
        Body::Declaration(name) => Some(name),
        _ => None,
    }
}

/// Adds a name.
fn push_name(
    alloc: Global,
    names: &mut Sig,
    properties: &mut IndexSet<Iri, HashKey>,
    name: &Name,
) -> Result<(), NoMemory>
    ensures { OnOk result ((k : Kind) (iri : List ℕ) → scope_in names.new properties.new.keys k iri ≡ (scope_in names.old properties.old.keys k iri || spec.is_named name.now k iri)) }
{
    push_property(alloc, properties, name)?;
    names.add(name)?;
    Ok(())
}

/// Adds a name to annotation properties, where it is one.
fn push_property(
    alloc: Global,
    properties: &mut IndexSet<Iri, HashKey>,
    name: &Name,
) -> Result<(), NoMemory>
    ensures { OnOk result (properties.new.keys ≡ with_property properties.old.keys name.now.kind name.now.iri) }
{
    if name.kind == Kind::AnnotationProperty {
        put(properties, name.iri.copy(alloc)?)?;
    }
    Ok(())
}

/// Adds an IRI to a set.
fn put(set: &mut IndexSet<Iri, HashKey>, iri: Iri) -> Result<bool, NoMemory>
    ensures { OnOk result (set.new.keys ≡ with_text set.old.keys iri) }
{
    Ok(set.insert(iri)?)
}
