//! `translate`: the axioms of a document.
ghost use Rattle.std.specs.Prelude.{◌≡◌, IfOk, OnOk, filter, map, not};
ghost use Rattle.text_sets.specs.Sorted.{sorted_by};
ghost use Rattle.text_sets.specs.Sets.{In, SameMembers};
ghost use Rattle.owl_ontology.specs.Ontology.{Entry, axioms_of};
ghost use Rattle.obo_frames.specs.Framed.{unlined};
ghost use Rattle.obo_mapping.specs.Documents.{is_untranslatable, name_of, owl, space_of};
ghost use Rattle.owl_axioms.specs.Proper.{IsProper};
ghost use Rattle.owl_axioms.specs.declared.body.Axiom.{Axiom};
ghost use Rattle.obo_statements.specs.Groups as spec;
ghost use Rattle.obo_statements.specs.Groups.{group_meant};
ghost use Rattle.obo_to_owl.specs.Reports.{dropped, report_key, report_of};
ghost use Rattle.obo_to_owl.specs.inner.Grouping.{AreBothAdded, AreGroupsAdded, AreProperGroups};
ghost use Rattle.obo_to_owl.specs.inner.Known.{IsKnown};
ghost use Rattle.obo_to_owl.specs.inner.Left.{is_left};
ghost use Rattle.obo_to_owl.specs.Translated.{IsPlaced};
ghost use Rattle.obo_to_owl.specs.inner.Rows.{AreRead, clause_of, of_row};

use crate::clauses::add_clauses;
use crate::groups::{add_groups, groups_of};
use crate::parted::parted;
use crate::rows::{Row, iris_of, rows_of};
use crate::situation::{Situation, situation_of};
use crate::spacing::add_spaces;
use crate::translated::{Translated, reports};
use hash_key::HashKey;
use iri_map::name_or_temp;
use obo_frames::{Document, ontology_name};
use obo_statements::Group;
use owl_ontology::Ontology;
use rel_io::{Bytes, Dup, NoMemory};
use sound_documents::said_is_proper;
use std::alloc::Global;

/// The axioms of a document under its name, each with the least line that says it, and the reports of the clauses that
/// have none, by line. A clause that stands in several frames, and a group over several frames of one Term, is one axiom;
/// a group that has a clause without an axiom has none. It takes time in proportion to the document, but for sorts.
pub fn translate(
    alloc: Global,
    hash_key: HashKey,
    document: &Document,
    file: u32,
) -> Result<Translated, NoMemory>
    ensures name { IfOk result (λ t. t.ontology.name ≡ name_of (map unlined document.now)) }
    ensures axioms { IfOk result
        (λ t. SameMembers (axioms_of t.ontology.entries) (owl (map unlined document.now))) }
    ensures origins { IfOk result
        (λ t. (entry : Entry) → In entry t.ontology.entries → IsPlaced file document.now entry) }
    ensures dropped { IfOk result (λ t. t.dropped ≡ dropped document.now) }
{
    said_is_proper();
    let _sound = document.len();
    let name = ontology_name(alloc, document)?;
    let space = name_or_temp(alloc, name.as_ref())?;
    let placed = document.as_slice();
    let iris = iris_of(alloc, &space, placed)?;
    let rows = rows_of(alloc, &space, placed, &iris)?;
    of_rows(alloc, hash_key, file, name, &space, rows.as_slice())
}

/// The axioms and the reports of clauses in an ontology of this name.
fn of_rows(
    alloc: Global,
    hash_key: HashKey,
    file: u32,
    name: Option<Bytes>,
    space: &Bytes,
    rows: &[Row],
) -> Result<Translated, NoMemory>
    requires name { name ≡ name_of (map of_row rows.now) }
    requires space { space.now ≡ space_of (map of_row rows.now) }
    requires read { AreRead space.now rows.now }
    requires proper { (said : Axiom) → In said (owl (map of_row rows.now)) → IsProper said }
    ensures name { IfOk result (λ t. t.ontology.name ≡ name) }
    ensures axioms { IfOk result (λ t. SameMembers (axioms_of t.ontology.entries) (owl (map of_row rows.now))) }
    ensures origins { IfOk result
        (λ t. (entry : Entry) → In entry t.ontology.entries → IsPlaced file (map clause_of rows.now) entry) }
    ensures dropped { IfOk result (λ t. t.dropped ≡ sorted_by report_key (map report_of
        (map clause_of (filter (λ row. is_untranslatable (map of_row rows.now) (of_row row)) rows.now)))) }
{
    let situation = situation_of(alloc, hash_key, name, rows)?;
    let (translated, left) = parted(alloc, &situation, rows)?;
    let dropped = reports(alloc, left.as_slice())?;
    let ontology = axioms_in(
        alloc,
        file,
        space,
        &situation,
        rows,
        translated.as_slice(),
        left.as_slice(),
    )?;
    Ok(Translated { ontology, dropped })
}

/// The axioms of clauses of which some are translated.
fn axioms_in(
    alloc: Global,
    file: u32,
    space: &Bytes,
    situation: &Situation,
    rows: &[Row],
    translated: &[Row],
    left: &[Row],
) -> Result<Ontology, NoMemory>
    requires known { IsKnown rows.now situation.now }
    requires space { space.now ≡ space_of (map of_row rows.now) }
    requires read { AreRead space.now rows.now }
    requires translated { translated.now ≡ filter (λ row. not (is_left situation.now row)) rows.now }
    requires left { left.now ≡ filter (is_left situation.now) rows.now }
    requires proper { (said : Axiom) → In said (owl (map of_row rows.now)) → IsProper said }
    ensures name { IfOk result (λ ontology. ontology.name ≡ situation.now.name) }
    ensures axioms { IfOk result (λ ontology. SameMembers (axioms_of ontology.entries) (owl (map of_row rows.now))) }
    ensures origins { IfOk result
        (λ ontology. (entry : Entry) → In entry ontology.entries → IsPlaced file (map clause_of rows.now) entry) }
{
    let mut ontology = Ontology::new(alloc, situation.hash_key(), situation.name.copy(alloc)?)?;
    add_clauses(alloc, space, file, situation, translated, &mut ontology)?;
    add_all_groups(alloc, space, file, translated, &mut ontology)?;
    add_spaces(alloc, file, situation, rows, left, &mut ontology)?;
    Ok(ontology)
}

/// Adds the axioms of all groups.
fn add_all_groups(
    alloc: Global,
    space: &Bytes,
    file: u32,
    translated: &[Row],
    ontology: &mut Ontology,
) -> Result<(), NoMemory>
    requires { (group : spec.Group) → AreProperGroups space.now group translated.now }
    ensures { OnOk result (AreBothAdded space.now file translated.now ontology.old ontology.new) }
{
    add_kind(
        alloc,
        space,
        file,
        Group::Intersection,
        translated,
        ontology,
    )?;
    add_kind(alloc, space, file, Group::Union, translated, ontology)?;
    Ok(())
}

/// Adds the axioms of all groups of a kind.
fn add_kind(
    alloc: Global,
    space: &Bytes,
    file: u32,
    group: Group,
    translated: &[Row],
    ontology: &mut Ontology,
) -> Result<(), NoMemory>
    requires { AreProperGroups space.now (group_meant group) translated.now }
    ensures { OnOk result (AreGroupsAdded space.now file (group_meant group) translated.now ontology.old ontology.new) }
{
    let groups = groups_of(alloc, ontology.hash_key(), translated, group)?;
    add_groups(alloc, space, file, group, &groups, ontology)?;
    Ok(())
}
