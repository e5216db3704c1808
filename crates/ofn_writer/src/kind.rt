//! Axioms with the kind of what they are about told.
ghost use Rattle.std.specs.Prelude.{◌≡◌, ◌∷◌, ◌++◌, IfOk, OnOk, Some};
ghost use Rattle.std.specs.Option.{option_copied};
ghost use Rattle.owl_axioms.specs.Text.{axiom_text};
ghost use Rattle.ofn_writer.specs.Kinds as kinds;
ghost use Rattle.ofn_writer.specs.Text as spec;
ghost use Rattle.ofn_writer.specs.inner.Declared.{declared_scope};

use crate::declared::Declared;
use owl_axioms::{Axiom, Body, Kind, Name, NoteValue, Side, axiom_text};
use rel_io::{Bytes, Dup, Iri, Items, NoMemory};
use std::alloc::Global;

/// The annotation property of the words for kinds.
const KIND: &[u8] = b"http://www.geneontology.org/formats/oboInOwl#kind";

/// Appends the text of an axiom, with the kind of its subject where that is told.
pub fn push_told(
    alloc: Global,
    out: &mut Vec<u8>,
    axiom: &Axiom,
    declared: &Declared,
) -> Result<(), NoMemory>
    ensures { OnOk result (out.new.items ≡ out.old.items ++ spec.told_text (declared_scope declared.now) «axiom».now) }
{
    match told_kind(&axiom.body, declared) {
        None => axiom_text(alloc, axiom, out),
        Some(kind) => push_with_kind(alloc, out, axiom, kind),
    }
}

/// The kind that is told of what an axiom says.
fn told_kind(body: &Body, declared: &Declared) -> Option<Kind>
    ensures { result ≡ spec.told_kind (declared_scope declared.now) body.now }
{
    match subject(body) {
        None => None,
        Some(name) => kind_if_many(name, declared),
    }
}

/// The kind of a name, where its IRI has several.
fn kind_if_many(name: &Name, declared: &Declared) -> Option<Kind>
    ensures { result ≡ spec.kind_if_many (declared_scope declared.now) name.now }
{
    if declared.has_many_kinds(&name.iri) {
        Some(name.kind)
    } else {
        None
    }
}

/// What a note is about.
#[tactic(auto, unfolding(crate::specs::Text::subject_of))]
fn subject(body: &Body) -> Option<&Name>
    ensures { option_copied result ≡ spec.subject_of body.now }
{
    match body {
        Body::Note(subject, _, _) => Some(subject),
        _ => None,
    }
}

/// Appends the text of an axiom with this kind before its annotations.
fn push_with_kind(
    alloc: Global,
    out: &mut Vec<u8>,
    axiom: &Axiom,
    kind: Kind,
) -> Result<(), NoMemory>
    ensures { OnOk result (out.new.items ≡ out.old.items ++ axiom_text (spec.with_kind (Some kind) «axiom».now)) }
{
    let told = with_kind(alloc, axiom, kind)?;
    let pushed = axiom_text(alloc, &told, out);
    drop(told);
    pushed
}

/// An axiom with this kind before its annotations.
fn with_kind(alloc: Global, axiom: &Axiom, kind: Kind) -> Result<Axiom, NoMemory>
    ensures { IfOk result (λ told. told ≡ spec.with_kind (Some kind) «axiom».now) }
{
    let sides = sides_with_kind(alloc, &axiom.sides, kind)?;
    let body = axiom.body.copy(alloc)?;
    Ok(Axiom { body, sides })
}

/// The annotations with this kind before them.
fn sides_with_kind(alloc: Global, sides: &Items<Side>, kind: Kind) -> Result<Items<Side>, NoMemory>
    ensures { IfOk result (λ told. told ≡ kinds.kind_side kind ∷ sides.now) }
{
    let told = kind_side(alloc, kind)?;
    let mut sides = sides.copy(alloc)?.into_vec();
    sides.insert(0, told)?;
    Ok(Items::from_vec(sides))
}

/// The annotation that tells a kind.
#[tactic(auto, unfolding(crate::specs::Kinds::kind_property))]
fn kind_side(alloc: Global, kind: Kind) -> Result<Side, NoMemory>
    ensures { IfOk result (λ side. side ≡ kinds.kind_side kind) }
{
    let property = Iri::from_slice(alloc, KIND)?;
    let word = Bytes::from_slice(alloc, kind_word(kind))?;
    Ok(Side {
        property,
        value: NoteValue::Text(word),
        label: None,
    })
}

/// The word for a kind.
#[tactic(auto, unfolding(crate::specs::Kinds::kind_word))]
fn kind_word(kind: Kind) -> &'static [u8]
    ensures { result.now ≡ kinds.kind_word kind }
{
    match kind {
        Kind::Class => b"class",
        Kind::Role => b"role",
        Kind::Individual => b"individual",
        Kind::AnnotationProperty => b"annotation-property",
    }
}
