//! The qualifiers of clauses: those that have a meaning of their own, and the annotations that the others are.
ghost use Rattle.std.specs.Prelude.{◌≡◌, ◌++◌, IfOk, OnOk};
ghost use Rattle.std.specs.List.{list_any};
ghost use Rattle.owl_axioms.specs.Text.{side_text};
ghost use Rattle.text_sets.specs.Sets.{AreTold};
ghost use Rattle.obo_clause.specs.declared.clause.Qualifier.{Qualifier};
ghost use Rattle.obo_notes.specs.Keys.{is_reserved_key};
ghost use Rattle.obo_notes.specs.Notes.{sorted_sides};
ghost use Rattle.obo_statements.specs.Extras as spec;
ghost use Rattle.obo_statements.specs.inner.Sides.{annotation_of};

use obo_clause::Qualifier;
use obo_notes::{is_reserved_key, side_of_qualifier, sorted};
use owl_axioms::Side;
use rel_io::{Items, NoMemory};
use std::alloc::Global;

/// Whether some qualifier has a meaning of its own.
pub fn has_extras(qualifiers: &[Qualifier]) -> bool
    ensures { result ≡ list_any (λ (q : Qualifier). is_reserved_key q.key) qualifiers.now }
{
    qualifiers
        .iter()
        .any(|qualifier| is_reserved_key(qualifier.key.as_slice()))
}

/// The qualifiers that are annotations, in the order of their texts, each once.
pub fn annotations_of(alloc: Global, qualifiers: &[Qualifier]) -> Result<Items<Side>, NoMemory>
    ensures { IfOk result (λ sides. sides ≡ sorted_sides (spec.annotations_of qualifiers.now)) }
{
    let mut sides = Vec::with_capacity(alloc, qualifiers.len())?;
    push_annotations(alloc, &mut sides, qualifiers)?;
    sorted(alloc, sides)
}

/// Appends the qualifiers that are annotations.
pub fn push_annotations(
    alloc: Global,
    sides: &mut Vec<Side>,
    qualifiers: &[Qualifier],
) -> Result<(), NoMemory>
    ensures { OnOk result (sides.new.items ≡ sides.old.items ++ spec.annotations_of qualifiers.now) }
{
    for qualifier in qualifiers {
        push_annotation(alloc, sides, qualifier)?;
    }
    Ok(())
}

/// Appends the qualifier, where it is an annotation.
fn push_annotation(
    alloc: Global,
    sides: &mut Vec<Side>,
    qualifier: &Qualifier,
) -> Result<(), NoMemory>
    ensures { OnOk result (sides.new.items ≡ sides.old.items ++ annotation_of qualifier.now) }
{
    if !is_reserved_key(qualifier.key.as_slice()) {
        let side = side_of_qualifier(alloc, qualifier)?;
        sides.push(side)?;
    }
    Ok(())
}
