//! The axioms that clauses say by themselves.
ghost use Rattle.std.specs.Prelude.{◌≡◌, ◌∷◌, [], IfOk, OnOk, Some};
ghost use Rattle.std.specs.List.{flat_map};
ghost use Rattle.text_sets.specs.Sets.{In};
ghost use Rattle.owl_axioms.specs.Proper.{IsProper};
ghost use Rattle.owl_axioms.specs.declared.body.Axiom.{Axiom};
ghost use Rattle.obo_to_owl.specs.inner.Adding.{AreAdded, entries_said, entry_at, said_by};
ghost use Rattle.obo_to_owl.specs.declared.rows.Row.{Row};

use crate::rows::Row;
use crate::said::{axiom_said, kind_of};
use crate::sets::has;
use crate::situation::Situation;
use owl_axioms::Axiom;
use owl_ontology::{Ontology, Origin};
use rel_io::{Bytes, NoMemory};
use std::alloc::Global;

/// Adds what each clause says by itself, with its line.
pub fn add_clauses(
    alloc: Global,
    space: &Bytes,
    file: u32,
    situation: &Situation,
    rows: &[Row],
    ontology: &mut Ontology,
) -> Result<(), NoMemory>
    requires { (row : Row) (said : Axiom) → In row rows.now → said_by space.now situation.now row ≡ Some said → IsProper said }
    ensures { OnOk result (AreAdded ontology.old ontology.new (flat_map (entries_said space.now file situation.now) rows.now)) }
{
    for row in rows {
        add_clause(alloc, space, file, situation, row, ontology)?;
    }
    Ok(())
}

/// Adds what a clause says by itself.
fn add_clause(
    alloc: Global,
    space: &Bytes,
    file: u32,
    situation: &Situation,
    row: &Row,
    ontology: &mut Ontology,
) -> Result<(), NoMemory>
    requires { (said : Axiom) → said_by space.now situation.now row.now ≡ Some said → IsProper said }
    ensures { OnOk result (AreAdded ontology.old ontology.new (entries_said space.now file situation.now row.now)) }
{
    match said_by(alloc, space, situation, row)? {
        Some(said) => add(ontology, said, file, row.placed.line),
        None => Ok(()),
    }
}

/// What a clause says by itself.
fn said_by(
    alloc: Global,
    space: &Bytes,
    situation: &Situation,
    row: &Row,
) -> Result<Option<Axiom>, NoMemory>
    ensures { IfOk result (λ said. said ≡ said_by space.now situation.now row.now) }
{
    let kind = kind_of(row.placed.frame, has(&situation.metadata, row.iri));
    axiom_said(alloc, space, kind, row.iri, row.placed)
}

/// Adds an axiom with its place.
pub fn add(ontology: &mut Ontology, said: Axiom, file: u32, line: u32) -> Result<(), NoMemory>
    requires { IsProper said }
    ensures { OnOk result (AreAdded ontology.old ontology.new (entry_at said file line ∷ [])) }
{
    ontology.add(said, Origin { file, line })?;
    Ok(())
}
