//! The clauses of the namespaces of frames that have none: the least default namespace, where the ontology gives one.
ghost use Rattle.std.specs.Prelude.{◌≡◌, ◌++◌, ◌||◌, [], codes, IfOk, None, OnOk, false, filter, map, not};
ghost use Rattle.std.specs.List.{filter_map, list_any};
ghost use Rattle.std.specs.Option.{option_copied, option_map_or, option_to_list};
ghost use Rattle.text_sets.specs.Sets.{SameMembers};
ghost use Rattle.owl_axioms.specs.declared.name.Name.{Name};
ghost use Rattle.owl_ontology.specs.Ontology.{axioms_of};
ghost use Rattle.obo_frames.specs.Framed.{unlined};
ghost use Rattle.obo_frames.specs.Naming as naming;
ghost use Rattle.obo_notes.specs.Context.{writing_in};
ghost use Rattle.obo_notes.specs.Vocabulary.{own_property};
ghost use Rattle.obo_mapping.specs.Back.{back, writing_of};
ghost use Rattle.obo_mapping.specs.Documents as spec;
ghost use Rattle.obo_writer.specs.inner.Missing.{all_spaced, clauses_spaced, has_name, name_eq, names_without, spacing};

use hash_key::HashKey;
use indexmap::IndexSet;
use iri_map::name_or_temp;
use obo_frames::Placed;
use obo_spelling::{Declared, clauses_of};
use owl_axioms::{Axiom, Body, Name, NoteValue};
use owl_ontology::Ontology;
use rel_io::{Bytes, Dup, Iri, Items, NoMemory};
use std::alloc::Global;
use std::cmp::Ordering;

/// What the document of the axioms lacks of the document of the axioms with the namespaces of frames that have none. No line
/// is given to the clauses. It takes time in proportion to the ontology.
pub fn missing_clauses(alloc: Global, ontology: &Ontology) -> Result<Vec<Placed>, NoMemory>
    ensures { IfOk result (λ made. SameMembers (back ontology.now.name (axioms_of ontology.now.entries) ++ map unlined made.items)
        (back ontology.now.name (spec.spaced [] [] (axioms_of ontology.now.entries)))) }
{
    match least_default(alloc, ontology)? {
        Some(space) => with_default(alloc, &space, ontology),
        None => Ok(Vec::new(alloc)),
    }
}

/// The clauses by which each declared name without a namespace gets this one.
fn with_default(alloc: Global, space: &Bytes, ontology: &Ontology) -> Result<Vec<Placed>, NoMemory>
    ensures { IfOk result (λ made. map unlined made.items ≡ all_spaced (writing_of ontology.now.name)
        (filter_map spec.declared_in (axioms_of ontology.now.entries)) space.now (names_without (axioms_of ontology.now.entries))) }
{
    let spaced = spaced_names(alloc, ontology)?;
    let names = names_without(alloc, &spaced, ontology)?;
    let declared = Declared::of(alloc, ontology)?;
    let place = name_or_temp(alloc, ontology.name())?;
    all_spaced(alloc, &place, &declared, space, names.as_slice())
}

/// The least default namespace of the ontology, if it has one.
fn least_default(alloc: Global, ontology: &Ontology) -> Result<Option<Bytes>, NoMemory>
    ensures { IfOk result (λ least. least ≡
        naming.least_text None (filter_map spec.default_in (axioms_of ontology.now.entries))) }
{
    let mut least = None;
    for at in 0..ontology.len() {
        least = keep_default(alloc, least, ontology.get(at))?;
    }
    Ok(least)
}

/// The least default namespace, where an axiom may say another one.
fn keep_default(
    alloc: Global,
    least: Option<Bytes>,
    said: &Axiom,
) -> Result<Option<Bytes>, NoMemory>
    ensures { IfOk result (λ least_now. least_now ≡
        naming.least_text least (option_to_list (spec.default_in said.now))) }
{
    match default_in(said) {
        Some(text) => Ok(Some(lesser(alloc, least, text)?)),
        None => Ok(least),
    }
}

/// The lesser of two texts, the first of which may be missing.
fn lesser(alloc: Global, least: Option<Bytes>, text: &Bytes) -> Result<Bytes, NoMemory>
    ensures { IfOk result (λ lesser. lesser ≡ naming.lesser_text least text.now) }
{
    match least {
        Some(least) => match text.cmp(&least) {
            Ordering::Less => text.copy(alloc),
            _ => Ok(least),
        },
        None => text.copy(alloc),
    }
}

/// The names that have a namespace.
fn spaced_names(alloc: Global, ontology: &Ontology) -> Result<IndexSet<Name, HashKey>, NoMemory>
    ensures { IfOk result (λ set. (x : Name) → has_name set x ≡
        list_any (name_eq x) (filter_map spec.is_namespace (axioms_of ontology.now.entries))) }
{
    let mut names = IndexSet::with_hasher(alloc, ontology.hash_key());
    for at in 0..ontology.len() {
        space_name(alloc, &mut names, ontology.get(at))?;
    }
    Ok(names)
}

/// Adds the name that an axiom gives a namespace.
fn space_name(
    alloc: Global,
    names: &mut IndexSet<Name, HashKey>,
    said: &Axiom,
) -> Result<(), NoMemory>
    ensures { OnOk result ((x : Name) → has_name names.new x ≡
        (option_map_or (name_eq x) (spec.is_namespace said.now) false || has_name names.old x)) }
{
    match spaced_in(said) {
        Some(name) => {
            let name = name.copy(alloc)?;
            add_name(names, name)
        }
        None => Ok(()),
    }
}

/// The declared names that are not in the set.
fn names_without(
    alloc: Global,
    spaced: &IndexSet<Name, HashKey>,
    ontology: &Ontology,
) -> Result<Vec<Name>, NoMemory>
    ensures { IfOk result (λ names. names.items ≡ filter (λ name. not (has_name spaced.now name))
        (filter_map spec.declared_in (axioms_of ontology.now.entries))) }
{
    let mut names = Vec::new(alloc);
    for at in 0..ontology.len() {
        push_name(alloc, &mut names, spaced, ontology.get(at))?;
    }
    Ok(names)
}

/// Appends the name that an axiom declares, where it is not in the set.
fn push_name(
    alloc: Global,
    names: &mut Vec<Name>,
    spaced: &IndexSet<Name, HashKey>,
    said: &Axiom,
) -> Result<(), NoMemory>
    ensures { OnOk result (names.new.items ≡ names.old.items
        ++ filter (λ name. not (has_name spaced.now name)) (option_to_list (spec.declared_in said.now))) }
{
    match declared_in(said) {
        Some(name) if !has_name(spaced, name) => {
            let name = name.copy(alloc)?;
            names.push(name)?;
            Ok(())
        }
        _ => Ok(()),
    }
}

/// The clauses by which each of the names gets the namespace, in an ontology of this name that declares these entities.
fn all_spaced(
    alloc: Global,
    place: &Bytes,
    declared: &Declared,
    space: &Bytes,
    names: &[Name],
) -> Result<Vec<Placed>, NoMemory>
    ensures { IfOk result (λ made. map unlined made.items ≡
        all_spaced (writing_in place.now) declared.now space.now names.now) }
{
    let mut placed = Vec::new(alloc);
    for name in names {
        push_spaced(alloc, place, declared, space, name, &mut placed)?;
    }
    Ok(placed)
}

/// Appends the clauses by which a name gets the namespace.
fn push_spaced(
    alloc: Global,
    place: &Bytes,
    declared: &Declared,
    space: &Bytes,
    name: &Name,
    placed: &mut Vec<Placed>,
) -> Result<(), NoMemory>
    ensures { OnOk result (map unlined placed.new.items ≡
        map unlined placed.old.items ++ clauses_spaced (writing_in place.now) declared.now space.now name.now) }
{
    let said = spacing(alloc, space, name)?;
    let found = clauses_of(alloc, place, declared, &said);
    drop(said);
    match found? {
        Some(clauses) => {
            let mut clauses = clauses;
            placed.append(&mut clauses)?;
            Ok(())
        }
        None => Ok(()),
    }
}

/// That a name has the namespace.
fn spacing(alloc: Global, space: &Bytes, name: &Name) -> Result<Axiom, NoMemory>
    ensures { IfOk result (λ said. said ≡ spacing space.now name.now) }
{
    let property = Iri::from_slice(alloc, namespace())?;
    let text = space.copy(alloc)?;
    let name = name.copy(alloc)?;
    Ok(Axiom {
        body: Body::Note(name, property, NoteValue::Text(text)),
        sides: Items::from_vec(Vec::new(alloc)),
    })
}

/// The property of namespaces.
#[tactic(auto, unfolding(obo_notes::specs::Vocabulary::obo_in_owl))]
fn namespace() -> &'static [u8]
    ensures { result.now ≡ own_property (codes "hasOBONamespace") }
{
    b"http://www.geneontology.org/formats/oboInOwl#hasOBONamespace"
}

/// The property of default namespaces.
#[tactic(auto, unfolding(obo_notes::specs::Vocabulary::obo_in_owl))]
fn default_namespace() -> &'static [u8]
    ensures { result.now ≡ own_property (codes "default-namespace") }
{
    b"http://www.geneontology.org/formats/oboInOwl#default-namespace"
}

/// The default namespace that an axiom says.
fn default_in(said: &Axiom) -> Option<&Bytes>
    ensures { option_copied result ≡ spec.default_in said.now }
{
    match &said.body {
        Body::OntologyNote(property, NoteValue::Text(text)) => {
            if property.as_slice() == default_namespace() {
                Some(text)
            } else {
                None
            }
        }
        _ => None,
    }
}

/// The name that an axiom gives a namespace.
fn spaced_in(said: &Axiom) -> Option<&Name>
    ensures { option_copied result ≡ spec.is_namespace said.now }
{
    match &said.body {
        Body::Note(name, property, NoteValue::Text(_)) => {
            if property.as_slice() == namespace() {
                Some(name)
            } else {
                None
            }
        }
        _ => None,
    }
}

/// The name that an axiom declares.
fn declared_in(said: &Axiom) -> Option<&Name>
    ensures { option_copied result ≡ spec.declared_in said.now }
{
    match &said.body {
        Body::Declaration(name) => Some(name),
        _ => None,
    }
}

/// Whether the name is in the set.
fn has_name(set: &IndexSet<Name, HashKey>, name: &Name) -> bool
    ensures { result ≡ has_name set.now name.now }
{
    set.contains(name)
}

/// Adds a name to a set.
fn add_name(set: &mut IndexSet<Name, HashKey>, name: Name) -> Result<(), NoMemory>
    ensures { OnOk result ((x : Name) → has_name set.new x ≡ (name_eq x name || has_name set.old x)) }
{
    set.insert(name)?;
    Ok(())
}
