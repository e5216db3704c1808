//! `spelled`: the clauses that say the axioms of an ontology.
ghost use Rattle.std.specs.Prelude.{◌≡◌, IfOk, is_some, OnOk, ◌++◌, unwrap_or, [], map};
ghost use Rattle.iri_map.specs.Ontology.{name_or_temp};
ghost use Rattle.owl_ontology.specs.Ontology.{axioms_of};
ghost use Rattle.obo_notes.specs.Context.{writing_in};
ghost use Rattle.obo_mapping.specs.Back.{spellable, writing_of};
ghost use Rattle.obo_mapping.specs.Documents.{clauses_for, spelled};
ghost use Rattle.obo_frames.specs.Framed.{unlined};
ghost use Rattle.obo_spelling.specs.inner.Clauses as inner;

use crate::Declared;
use crate::clauses::clauses_of;
use iri_map::name_or_temp;
use obo_frames::Placed;
use owl_axioms::Axiom;
use owl_ontology::Ontology;
use rel_io::{Bytes, NoMemory};
use std::alloc::Global;

/// The clauses of axioms.
#[derive(Drop)]
pub struct Spelling {
    /// The clauses in their frames, without lines.
    pub placed: Vec<Placed>,
    /// Whether each axiom has some.
    pub is_whole: bool,
}

/// The clauses that say the axioms of the ontology, axiom by axiom; none for an axiom that has no form. It takes time in
/// proportion to the ontology, but for the sorts of the parts of axioms.
pub fn spelled(alloc: Global, ontology: &Ontology) -> Result<Spelling, NoMemory>
    ensures clauses { IfOk result (λ made. map unlined made.placed.items ≡
        spelled (writing_of ontology.now.name) (axioms_of ontology.now.entries)) }
    ensures whole { IfOk result (λ made. made.is_whole ≡ spellable ontology.now.name (axioms_of ontology.now.entries)) }
{
    let declared = Declared::of(alloc, ontology)?;
    let space = name_or_temp(alloc, ontology.name())?;
    all_spelled(alloc, &space, &declared, ontology)
}

/// The clauses that say the axioms of an ontology, in one of this name that declares these entities.
fn all_spelled(
    alloc: Global,
    space: &Bytes,
    declared: &Declared,
    ontology: &Ontology,
) -> Result<Spelling, NoMemory>
    ensures clauses { IfOk result (λ made. map unlined made.placed.items ≡
        inner.spelled_in (writing_in space.now) declared.now (axioms_of ontology.now.entries)) }
    ensures whole { IfOk result (λ made. made.is_whole ≡
        inner.are_formed (writing_in space.now) declared.now (axioms_of ontology.now.entries)) }
{
    let mut placed = Vec::new(alloc);
    let mut is_whole = true;
    for at in 0..ontology.len() {
        let has_form = push_clauses(alloc, space, declared, ontology.get(at), &mut placed)?;
        is_whole &= has_form;
    }
    Ok(Spelling { placed, is_whole })
}

/// Appends the clauses of an axiom, and says whether it has some.
fn push_clauses(
    alloc: Global,
    space: &Bytes,
    declared: &Declared,
    stated: &Axiom,
    placed: &mut Vec<Placed>,
) -> Result<bool, NoMemory>
    ensures clauses { OnOk result (map unlined placed.new.items ≡
        map unlined placed.old.items ++ unwrap_or (clauses_for (writing_in space.now) declared.now stated.now) []) }
    ensures is_formed { IfOk result (λ is_formed. is_formed ≡
        is_some (clauses_for (writing_in space.now) declared.now stated.now)) }
{
    match clauses_of(alloc, space, declared, stated)? {
        Some(clauses) => {
            let mut clauses = clauses;
            placed.append(&mut clauses)?;
            Ok(true)
        }
        None => Ok(false),
    }
}
