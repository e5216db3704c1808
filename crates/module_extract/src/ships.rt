//! What is shipped with a part of the logical axioms.
ghost use Rattle.std.specs.Prelude.{◌≡◌, if◌then◌else◌, IfOk, OnOk, length};
ghost use Rattle.module_extract.specs.Laws.{KeepsWith};
ghost use Rattle.module_extract.specs.Shipped.{is_said, shipped_flags, ships, ships_each};
ghost use Rattle.owl_axioms.specs.Names.{body_names, names_of};
ghost use Rattle.owl_axioms.specs.Signature.{added, scope_of};
ghost use Rattle.owl_ontology.specs.Ontology.{axioms_of, flagged};

use owl_axioms::{Axiom, Body, Name, Sig, is_signed, sig_of};
use owl_ontology::Ontology;
use rel_io::{Dup, NoMemory};
use std::alloc::Global;

/// What is shipped with a part: its axioms, what is declared and said in words of each name in the signature or in
/// the part, of annotation properties, and of owl:Thing and owl:Nothing, and what is said of the ontology.
pub fn shipped(
    alloc: Global,
    ontology: &Ontology,
    kept: &Vec<bool>,
    sig: &Sig,
) -> Result<Vec<bool>, NoMemory>
    requires { length kept.now.items ≡ length ontology.now.entries }
    ensures exact { IfOk result (λ flags. flags.items ≡ shipped_flags (scope_of sig.now) (axioms_of ontology.now.entries) kept.now.items) }
    ensures keeps { IfOk result (λ flags. KeepsWith (axioms_of ontology.now.entries) kept.now.items flags.items) }
{
    let names = names_with(alloc, ontology, kept, sig)?;
    let flags = flags_in(alloc, ontology, kept, &names)?;
    Ok(flags)
}

/// The flags of what is shipped, by the names of the signature and of the part.
fn flags_in(
    alloc: Global,
    ontology: &Ontology,
    kept: &Vec<bool>,
    names: &Sig,
) -> Result<Vec<bool>, NoMemory>
    requires { length kept.now.items ≡ length ontology.now.entries }
    ensures { IfOk result (λ flags. flags.items ≡ ships_each (scope_of names.now) (axioms_of ontology.now.entries) kept.now.items) }
{
    let mut flags = Vec::new(alloc);
    for at in 0..ontology.len() {
        flags.push(ships(names, kept[at], &ontology.get(at).body))?;
    }
    Ok(flags)
}

/// A signature with the names of a part besides its own.
fn names_with(
    alloc: Global,
    ontology: &Ontology,
    kept: &Vec<bool>,
    sig: &Sig,
) -> Result<Sig, NoMemory>
    requires { length kept.now.items ≡ length ontology.now.entries }
    ensures { IfOk result (λ names. names ≡ added sig.now (names_of (flagged kept.now.items (axioms_of ontology.now.entries)))) }
{
    let mut names = sig.copy(alloc)?;
    for at in 0..ontology.len() {
        add_if(kept[at], ontology.get(at), &mut names)?;
    }
    Ok(names)
}

/// Adds the names in an axiom that is of a part.
fn add_if(flag: bool, one: &Axiom, names: &mut Sig) -> Result<(), NoMemory>
    ensures { OnOk result (names.new ≡ (if flag then added names.old (body_names one.now.body) else names.old)) }
{
    if flag { sig_of(one, names) } else { Ok(()) }
}

/// Whether an axiom is shipped, by its flag and its subject.
#[tactic(auto, unfolding(crate::specs::Shipped::ships))]
fn ships(names: &Sig, flag: bool, body: &Body) -> bool
    ensures { result ≡ ships (scope_of names.now) flag body.now }
{
    match body {
        Body::Declaration(name) => is_said(names, name),
        Body::Note(subject, _, _) => is_said(names, subject),
        Body::OntologyNote(_, _) => true,
        _ => flag,
    }
}

/// Whether what is said of a name is shipped.
#[tactic(auto, unfolding(crate::specs::Shipped::is_said))]
fn is_said(names: &Sig, name: &Name) -> bool
    ensures { result ≡ is_said (scope_of names.now) name.now }
{
    names.has(name.kind, &name.iri) || !is_signed(name)
}
