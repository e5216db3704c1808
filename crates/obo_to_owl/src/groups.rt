//! The groups of the Terms of one IRI, in however many frames they stand.
ghost use Rattle.std.specs.Prelude.{◌≡◌, ◌<◌, ℕ, IfOk, List, None, OnOk, Some, if◌then◌else◌, length, slice_get};
ghost use Rattle.std.specs.List.{flat_map};
ghost use Rattle.std.specs.Option.{option_map};
ghost use Rattle.std.specs.Str.{bytes_eq};
ghost use Rattle.text_sets.specs.Sets.{In};
ghost use Rattle.indexmap.specs.IndexMap.{IsUnique};
ghost use Rattle.owl_axioms.specs.Proper.{IsProper};
ghost use Rattle.owl_axioms.specs.declared.body.Axiom.{Axiom};
ghost use Rattle.obo_statements.specs.Groups.{group_meant};
ghost use Rattle.obo_to_owl.specs.inner.Adding.{AreAdded};
ghost use Rattle.obo_to_owl.specs.inner.Grouping.{Grouped, gather, gather_all, group_axiom, group_entries, group_in, group_rows, kept_in, lesser_line, seen};

use crate::clauses::add;
use crate::misfit::is_of_group;
use crate::rows::Row;
use hash_key::HashKey;
use indexmap::IndexMap;
use obo_clause::Clause;
use obo_statements::{Group, group_of};
use owl_ontology::Ontology;
use rel_io::{Bytes, Dup, Iri, NoMemory};
use std::alloc::Global;

/// The clauses of a group, and the least of their lines.
#[derive(Drop)]
pub struct Gathered<'a> {
    /// The line.
    pub line: u32,
    /// The clauses, in their order.
    pub clauses: Vec<&'a Clause>,
}

/// All groups of a kind, by the IRIs of their Terms.
pub fn groups_of<'a>(
    alloc: Global,
    hash_key: HashKey,
    rows: &[Row<'a>],
    group: Group,
) -> Result<IndexMap<Iri, Gathered<'a>, HashKey>, NoMemory>
    ensures members { IfOk result (λ groups. (x : List ℕ) → group_in groups x ≡
        gather_all (group_rows (group_meant group) x rows.now)) }
    ensures unique { IfOk result (IsUnique bytes_eq) }
{
    let mut groups = IndexMap::with_hasher(alloc, hash_key);
    for row in rows {
        keep(alloc, &mut groups, group, row)?;
    }
    Ok(groups)
}

/// Adds a clause, where it is one of a group of the kind.
fn keep<'a>(
    alloc: Global,
    groups: &mut IndexMap<Iri, Gathered<'a>, HashKey>,
    group: Group,
    row: &Row<'a>,
) -> Result<(), NoMemory>
    requires { IsUnique bytes_eq groups.old }
    ensures members { OnOk result ((x : List ℕ) → group_in groups.new x ≡
        kept_in (group_meant group) row.now x (group_in groups.old x)) }
    ensures unique { OnOk result (IsUnique bytes_eq groups.new) }
{
    if is_of_group(group, row.placed) {
        join(alloc, groups, row)
    } else {
        Ok(())
    }
}

/// Adds a clause to its group.
fn join<'a>(
    alloc: Global,
    groups: &mut IndexMap<Iri, Gathered<'a>, HashKey>,
    row: &Row<'a>,
) -> Result<(), NoMemory>
    ensures members { OnOk result ((x : List ℕ) → group_in groups.new x ≡
        (if bytes_eq row.now.iri.now x then Some (gather row.now (group_in groups.old x)) else group_in groups.old x)) }
    ensures unique { OnOk result (IsUnique bytes_eq groups.new) }
{
    let held = groups.swap_remove(row.iri);
    let gathered = one_more(alloc, held, row)?;
    let iri = row.iri.copy(alloc)?;
    groups.insert(iri, gathered)?;
    Ok(())
}

/// A group with one clause more.
fn one_more<'a>(
    alloc: Global,
    held: Option<Gathered<'a>>,
    row: &Row<'a>,
) -> Result<Gathered<'a>, NoMemory>
    ensures { IfOk result (λ group. seen group ≡ gather row.now (option_map seen held.entry)) }
{
    match held {
        Some(held) => more(held, row),
        None => first(alloc, row),
    }
}

/// A group of one clause.
fn first<'a>(alloc: Global, row: &Row<'a>) -> Result<Gathered<'a>, NoMemory>
    ensures { IfOk result (λ group. seen group ≡ gather row.now None) }
{
    let mut clauses = Vec::new(alloc);
    clauses.push(&row.placed.clause)?;
    Ok(Gathered {
        line: row.placed.line,
        clauses,
    })
}

/// A group that is there, with one clause more.
fn more<'a>(held: Gathered<'a>, row: &Row<'a>) -> Result<Gathered<'a>, NoMemory>
    ensures { IfOk result (λ group. seen group ≡ gather row.now (Some (seen held.entry))) }
{
    let Gathered { line, clauses } = held;
    let mut clauses = clauses;
    clauses.push(&row.placed.clause)?;
    let line = lesser(row.placed.line, line);
    Ok(Gathered { line, clauses })
}

/// The lesser of two lines.
pub fn lesser(one: u32, other: u32) -> u32
    ensures { result ≡ lesser_line one other }
{
    if one < other { one } else { other }
}

/// Adds the axiom of each group, with the least of its lines.
pub fn add_groups(
    alloc: Global,
    space: &Bytes,
    file: u32,
    group: Group,
    groups: &IndexMap<Iri, Gathered, HashKey>,
    ontology: &mut Ontology,
) -> Result<(), NoMemory>
    requires { (one : Grouped) (said : Axiom) → In one groups.now.entries
        → group_axiom space.now (group_meant group) one ≡ Some said → IsProper said }
    ensures { OnOk result (AreAdded ontology.old ontology.new
        (flat_map (group_entries space.now file (group_meant group)) groups.now.entries)) }
{
    for at in 0..groups.len() {
        let (iri, gathered) = group_at(groups, at);
        add_group(alloc, space, file, group, iri, gathered, ontology)?;
    }
    Ok(())
}

/// The group at a place.
fn group_at<'a, 'b>(
    groups: &'b IndexMap<Iri, Gathered<'a>, HashKey>,
    at: usize,
) -> (&'b Iri, &'b Gathered<'a>)
    requires { at < length groups.now.entries }
    ensures { slice_get groups.now.entries at ≡ Some (result.0.now, result.1.now) }
{
    groups.get_index(at).unwrap()
}

/// Adds the axiom of a group.
fn add_group(
    alloc: Global,
    space: &Bytes,
    file: u32,
    group: Group,
    iri: &Iri,
    gathered: &Gathered,
    ontology: &mut Ontology,
) -> Result<(), NoMemory>
    requires { (said : Axiom) → group_axiom space.now (group_meant group) (iri.now, gathered.now) ≡ Some said
        → IsProper said }
    ensures { OnOk result (AreAdded ontology.old ontology.new
        (group_entries space.now file (group_meant group) (iri.now, gathered.now))) }
{
    match group_of(alloc, space, iri, group, gathered.clauses.as_slice())? {
        Some(said) => add(ontology, said, file, gathered.line),
        None => Ok(()),
    }
}
