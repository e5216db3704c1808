//! Which IRIs an ontology knows, and how many of a seed it does not.
ghost use Rattle.std.specs.Prelude.{◌≡◌, ◌||◌, false, if◌then◌else◌, IfOk, List, MatchOption, ℕ, OnOk};
ghost use Rattle.std.specs.Str.{bytes_eq};
ghost use Rattle.extract_step.specs.Known.{declares, has_iri, is_known, missing_count, names_iri, unknown_count};
ghost use Rattle.owl_axioms.specs.Signature.{add_name, scope_of};
ghost use Rattle.owl_axioms.specs.declared.name.Kind.TheVariants as kind;
ghost use Rattle.owl_ontology.specs.Ontology.{axioms_of};

use module_extract::is_logical;
use owl_axioms::{Axiom, Body, Kind, Name, Sig, sig_of};
use owl_ontology::Ontology;
use rel_io::{Dup, Iri, NoMemory};
use std::alloc::Global;

/// How many of these IRIs the ontology does not know.
pub fn unknown(alloc: Global, ontology: &Ontology, iris: &[Iri]) -> Result<usize, NoMemory>
    ensures { IfOk result (λ count. count ≡ unknown_count (axioms_of ontology.now.entries) iris.now) }
{
    let names = names_in(alloc, ontology)?;
    let count = count_unknown(&names, iris);
    drop(names);
    Ok(count)
}

/// How many of these IRIs no name has.
fn count_unknown(names: &Sig, iris: &[Iri]) -> usize
    ensures { result ≡ missing_count (has_iri (scope_of names.now)) iris.now }
{
    let mut count = 0;
    for at in 0..iris.len() {
        count += one_without(names, &iris[at]);
    }
    count
}

/// One for an IRI that no name has.
fn one_without(names: &Sig, iri: &Iri) -> usize
    ensures { result ≡ (if has_iri (scope_of names.now) iri.now then 0 else 1) }
{
    if has_iri(names, iri) { 0 } else { 1 }
}

/// Whether a name has this IRI, of whatever kind it is.
fn has_iri(names: &Sig, iri: &Iri) -> bool
    ensures { result ≡ has_iri (scope_of names.now) iri.now }
{
    names.has(Kind::Class, iri) || names.has(Kind::Role, iri) || names.has(Kind::Individual, iri)
}

/// Names with the IRIs that the ontology knows, and no other.
fn names_in(alloc: Global, ontology: &Ontology) -> Result<Sig, NoMemory>
    ensures { IfOk result (λ names. (iri : List ℕ) → has_iri (scope_of names) iri ≡ is_known (axioms_of ontology.now.entries) iri) }
{
    let mut names = Sig::new(alloc, ontology.hash_key())?;
    for at in 0..ontology.len() {
        add_known(alloc, ontology.get(at), &mut names)?;
    }
    Ok(names)
}

/// Adds names with the IRIs that an axiom makes known.
fn add_known(alloc: Global, one: &Axiom, names: &mut Sig) -> Result<(), NoMemory>
    ensures { OnOk result ((iri : List ℕ) → has_iri (scope_of names.new) iri ≡ (has_iri (scope_of names.old) iri || names_iri iri one.now.body)) }
{
    if is_logical(&one.body) {
        return sig_of(one, names);
    }
    add_declared(alloc, &one.body, names)
}

/// Adds a name with the IRI that an axiom declares.
fn add_declared(alloc: Global, body: &Body, names: &mut Sig) -> Result<(), NoMemory>
    ensures { OnOk result ((iri : List ℕ) → has_iri (scope_of names.new) iri ≡ (has_iri (scope_of names.old) iri || declares iri body.now)) }
{
    match declared_in(body) {
        None => Ok(()),
        Some(iri) => add_iri(alloc, iri, names),
    }
}

/// The IRI that an axiom declares, if it declares one.
#[tactic(auto, unfolding(crate::specs::Known::declares))]
fn declared_in(body: &Body) -> Option<&Iri>
    ensures { MatchOption result ((iri : List ℕ) → declares iri body.now ≡ false) (λ found. (iri : List ℕ) → declares iri body.now ≡ bytes_eq found.now iri) }
{
    match body {
        Body::Declaration(name) => Some(&name.iri),
        _ => None,
    }
}

/// Adds a name with this IRI.
fn add_iri(alloc: Global, iri: &Iri, names: &mut Sig) -> Result<(), NoMemory>
    ensures { OnOk result (names.new ≡ add_name names.old kind.Class iri.now) }
{
    let name = Name {
        kind: Kind::Class,
        iri: iri.copy(alloc)?,
    };
    names.add(&name)?;
    Ok(())
}
