//! The namespaces of frames that have none: the least default namespace.
ghost use Rattle.std.specs.Prelude.{◌≡◌, ◌||◌, codes, IfOk, None, OnOk};
ghost use Rattle.std.specs.List.{filter_map};
ghost use Rattle.std.specs.Option.{option_copied, option_to_list};
ghost use Rattle.owl_axioms.specs.declared.name.Name.{Name};
ghost use Rattle.owl_ontology.specs.Ontology.{axioms_of};
ghost use Rattle.obo_frames.specs.Framed.{unlined};
ghost use Rattle.obo_frames.specs.Naming as naming;
ghost use Rattle.obo_notes.specs.Vocabulary.{own_property};
ghost use Rattle.obo_mapping.specs.Documents as spec;
ghost use Rattle.obo_to_owl.specs.inner.Spacing.{default_kept, entity_in, has_name, keeps, name_eq, spacing};

use crate::misfit::{has_tag, is_raw};
use crate::rows::Row;
use crate::said::{entity, kind_of};
use crate::sets::has;
use crate::situation::Situation;
use hash_key::HashKey;
use indexmap::IndexSet;
use obo_clause::Value;
use obo_frames::Placed;
use owl_axioms::{Axiom, Body, Name, NoteValue};
use owl_ontology::Ontology;
use rel_io::{Bytes, Dup, Iri, Items, NoMemory};
use std::alloc::Global;
use std::cmp::Ordering;

/// The property of namespaces.
#[tactic(auto, unfolding(obo_notes::specs::Vocabulary::obo_in_owl))]
fn namespace() -> &'static [u8]
    ensures { result.now ≡ own_property (codes "hasOBONamespace") }
{
    b"http://www.geneontology.org/formats/oboInOwl#hasOBONamespace"
}

/// The property of default namespaces.
#[tactic(auto, unfolding(obo_notes::specs::Vocabulary::obo_in_owl))]
fn default_namespace() -> &'static [u8]
    ensures { result.now ≡ own_property (codes "default-namespace") }
{
    b"http://www.geneontology.org/formats/oboInOwl#default-namespace"
}

/// That a name has the namespace.
pub fn spacing(alloc: Global, name: Name, space: &Bytes) -> Result<Axiom, NoMemory>
    ensures { IfOk result (λ said. said ≡ spacing name space.now) }
{
    let property = Iri::from_slice(alloc, namespace())?;
    let text = space.copy(alloc)?;
    Ok(Axiom {
        body: Body::Note(name, property, NoteValue::Text(text)),
        sides: Items::from_vec(Vec::new(alloc)),
    })
}

/// The entity of the frame of a clause.
pub fn entity_of(alloc: Global, situation: &Situation, row: &Row) -> Result<Option<Name>, NoMemory>
    ensures { IfOk result (λ name. name ≡ entity_in situation.now row.now) }
{
    match kind_of(row.placed.frame, has(&situation.metadata, row.iri)) {
        Some(kind) => Ok(Some(entity(alloc, kind, row.iri)?)),
        None => Ok(None),
    }
}

/// Whether a clause of the tag still counts where it is not translated.
pub fn keeps(tag: &[u8], one: &Placed) -> bool
    ensures { result ≡ keeps tag.now (unlined one.now) }
{
    has_tag(tag, one) && !is_raw(&one.clause.value)
}

/// The default namespace of a clause that is not translated.
fn default_kept<'a>(row: &Row<'a>) -> Option<&'a Bytes>
    ensures { option_copied result ≡ default_kept row.now }
{
    match &row.placed.clause.value {
        Value::Text(text) if has_tag(b"default-namespace", row.placed) => Some(text),
        _ => None,
    }
}

/// The least default namespace of the clauses that are not translated.
pub fn kept_default(alloc: Global, left: &[Row]) -> Result<Option<Bytes>, NoMemory>
    ensures { IfOk result (λ least. least ≡ naming.least_text None (filter_map default_kept left.now)) }
{
    let mut least = None;
    for row in left {
        if let Some(text) = default_kept(row) {
            least = Some(lesser(alloc, least, text)?);
        }
    }
    Ok(least)
}

/// The least default namespace of the axioms and the one before.
pub fn least_default(
    alloc: Global,
    kept: Option<Bytes>,
    ontology: &Ontology,
) -> Result<Option<Bytes>, NoMemory>
    ensures { IfOk result (λ least. least ≡
        naming.least_text kept (filter_map spec.default_in (axioms_of ontology.now.entries))) }
{
    let mut least = kept;
    for at in 0..ontology.len() {
        least = keep_default(alloc, least, ontology.get(at))?;
    }
    Ok(least)
}

/// The least default namespace, where an axiom may say another one.
fn keep_default(
    alloc: Global,
    least: Option<Bytes>,
    said: &Axiom,
) -> Result<Option<Bytes>, NoMemory>
    ensures { IfOk result (λ least_now. least_now ≡
        naming.least_text least (option_to_list (spec.default_in said.now))) }
{
    match default_in(said) {
        Some(text) => Ok(Some(lesser(alloc, least, text)?)),
        None => Ok(least),
    }
}

/// The lesser of two texts, the first of which may be missing.
fn lesser(alloc: Global, least: Option<Bytes>, text: &Bytes) -> Result<Bytes, NoMemory>
    ensures { IfOk result (λ lesser. lesser ≡ naming.lesser_text least text.now) }
{
    match least {
        Some(least) => match text.cmp(&least) {
            Ordering::Less => text.copy(alloc),
            _ => Ok(least),
        },
        None => text.copy(alloc),
    }
}

/// The default namespace that an axiom says.
fn default_in(said: &Axiom) -> Option<&Bytes>
    ensures { option_copied result ≡ spec.default_in said.now }
{
    match &said.body {
        Body::OntologyNote(property, NoteValue::Text(text)) => {
            if property.as_slice() == default_namespace() {
                Some(text)
            } else {
                None
            }
        }
        _ => None,
    }
}

/// The name that an axiom gives a namespace.
pub fn spaced_in(said: &Axiom) -> Option<&Name>
    ensures { option_copied result ≡ spec.is_namespace said.now }
{
    match &said.body {
        Body::Note(name, property, NoteValue::Text(_)) => {
            if property.as_slice() == namespace() {
                Some(name)
            } else {
                None
            }
        }
        _ => None,
    }
}

/// The name that an axiom declares.
pub fn declared_in(said: &Axiom) -> Option<&Name>
    ensures { option_copied result ≡ spec.declared_in said.now }
{
    match &said.body {
        Body::Declaration(name) => Some(name),
        _ => None,
    }
}

/// Whether the name is in the set.
pub fn has_name(set: &IndexSet<Name, HashKey>, name: &Name) -> bool
    ensures { result ≡ has_name set.now name.now }
{
    set.contains(name)
}

/// Adds a name to a set.
pub fn add_name(set: &mut IndexSet<Name, HashKey>, name: Name) -> Result<(), NoMemory>
    ensures { OnOk result ((x : Name) → has_name set.new x ≡ (name_eq x name || has_name set.old x)) }
{
    set.insert(name)?;
    Ok(())
}
