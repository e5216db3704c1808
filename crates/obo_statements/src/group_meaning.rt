//! `group_of`: the axiom that the clauses of a group say together.
ghost use Rattle.std.specs.Prelude.{◌≡◌, ◌++◌, IfOk, OnOk, map};
ghost use Rattle.std.specs.List.{flat_map};
ghost use Rattle.std.specs.Option.{option_map};
ghost use Rattle.obo_clause.specs.declared.clause.Clause.{Clause};
ghost use Rattle.obo_clause.specs.declared.clause.Value.TheVariants as value;
ghost use Rattle.owl_axioms.specs.Text as text;
ghost use Rattle.owl_axioms.specs.Text.{side_text};
ghost use Rattle.text_sets.specs.Keyed.{items_of, key_of};
ghost use Rattle.text_sets.specs.Parts.{each_some};
ghost use Rattle.text_sets.specs.Sets.{AreTold};
ghost use Rattle.text_sets.specs.Sorted.{sorted_by};
ghost use Rattle.obo_notes.specs.Context.{reading_in};
ghost use Rattle.obo_notes.specs.Notes.{sorted_sides};
ghost use Rattle.obo_statements.specs.Extras.{annotations_of};
ghost use Rattle.obo_statements.specs.Groups as spec;
ghost use Rattle.obo_statements.specs.Groups.{group_meant};

use crate::Group;
use crate::classes::{class_read, restriction};
use crate::order::exprs_in_order;
use crate::sides::{has_extras, push_annotations};
use obo_clause::{Clause, Value};
use obo_notes::sorted;
use owl_axioms::{Axiom, Body, ClassExpr, Side, class_named, expr_text};
use rel_io::{Bytes, Dup, Iri, Items, NoMemory};
use std::alloc::Global;
use text_sets::{Keyed, items_of, sorted_once};

/// The axiom that all clauses of a group say together of the class with this IRI, in an ontology of this name: it is
/// equivalent to the intersection or union of what each clause stands for, in the order of their texts, each once, and the
/// qualifiers of all clauses are its annotations. `None` exactly where some clause stands for nothing, by its value or by
/// a qualifier that has a meaning of its own. It takes time in proportion to the clauses, but for the sorts.
#[tactic(auto, unfolding(crate::specs::Groups::group_meaning))]
pub fn group_of(
    alloc: Global,
    space: &Bytes,
    x: &Iri,
    group: Group,
    clauses: &[&Clause],
) -> Result<Option<Axiom>, NoMemory>
    ensures exact { IfOk result (λ said. said ≡
        spec.group_meaning (reading_in space.now) x.now (group_meant group) (map (λ clause. clause.now) clauses.now)) }
{
    let Some(operands) = operands_of(alloc, space, group, clauses)? else {
        return Ok(None);
    };
    let sides = all_annotations(alloc, clauses)?;
    let operands = sorted_operands(alloc, operands)?;
    let class = x.copy(alloc)?;
    let body = pair_of(alloc, class_named(class), group_expr(group, operands))?;
    Ok(Some(Axiom { body, sides }))
}

/// What each clause stands for, where all stand for something.
fn operands_of(
    alloc: Global,
    space: &Bytes,
    group: Group,
    clauses: &[&Clause],
) -> Result<Option<Vec<ClassExpr>>, NoMemory>
    ensures { IfOk result (λ found. option_map (λ operands. operands.items) found ≡
        each_some (spec.operand_of (reading_in space.now) (group_meant group)) (map (λ clause. clause.now) clauses.now)) }
{
    let mut operands = Vec::with_capacity(alloc, clauses.len())?;
    for clause in clauses {
        match operand_of(alloc, space, group, clause)? {
            Some(operand) => operands.push(operand)?,
            None => return Ok(None),
        }
    }
    Ok(Some(operands))
}

/// What a clause of the group stands for.
fn operand_of(
    alloc: Global,
    space: &Bytes,
    group: Group,
    clause: &Clause,
) -> Result<Option<ClassExpr>, NoMemory>
    ensures { IfOk result
        (λ operand. operand ≡ spec.operand_of (reading_in space.now) (group_meant group) clause.now) }
{
    if has_extras(clause.qualifiers.as_slice()) {
        Ok(None)
    } else {
        operand_plainly(alloc, space, group, &clause.value)
    }
}

/// What a value stands for, without qualifiers that have a meaning of their own.
fn operand_plainly(
    alloc: Global,
    space: &Bytes,
    group: Group,
    value: &Value,
) -> Result<Option<ClassExpr>, NoMemory>
    ensures { IfOk result
        (λ operand. operand ≡ spec.operand_plainly (reading_in space.now) (group_meant group) value.now) }
{
    match value {
        Value::Id(id) => Ok(Some(class_read(alloc, space, id)?)),
        Value::Pair(role, filler) => restricted(alloc, space, group, role, filler),
        _ => Ok(None),
    }
}

/// What two ids stand for: a restriction, in an intersection alone.
fn restricted(
    alloc: Global,
    space: &Bytes,
    group: Group,
    role: &Bytes,
    filler: &Bytes,
) -> Result<Option<ClassExpr>, NoMemory>
    ensures { IfOk result (λ operand. operand ≡
        spec.operand_plainly (reading_in space.now) (group_meant group) (value.Pair role.now filler.now)) }
{
    match group {
        Group::Intersection => Ok(Some(restriction(alloc, space, role, filler)?)),
        Group::Union => Ok(None),
    }
}

/// The annotations that the qualifiers of all clauses are, in the order of their texts, each once.
fn all_annotations(alloc: Global, clauses: &[&Clause]) -> Result<Items<Side>, NoMemory>
    ensures { IfOk result (λ sides. sides ≡ sorted_sides
        (flat_map (λ (clause : Clause). annotations_of clause.qualifiers) (map (λ clause. clause.now) clauses.now))) }
{
    let mut sides = Vec::new(alloc);
    for clause in clauses {
        push_annotations(alloc, &mut sides, clause.qualifiers.as_slice())?;
    }
    sorted(alloc, sides)
}

/// The operands in the order of their texts, each once.
fn sorted_operands(alloc: Global, operands: Vec<ClassExpr>) -> Result<Items<ClassExpr>, NoMemory>
    requires told { AreTold text.expr_text operands.items }
    ensures { IfOk result (λ sorted. sorted ≡ sorted_by text.expr_text operands.items) }
{
    let keyed = keyed(alloc, operands)?;
    let operands = items_of(alloc, sorted_once(keyed))?;
    Ok(Items::from_vec(operands))
}

/// The operands beside their texts.
fn keyed(alloc: Global, operands: Vec<ClassExpr>) -> Result<Vec<Keyed<ClassExpr>>, NoMemory>
    ensures items { IfOk result (λ keyed. items_of keyed.items ≡ operands.items) }
    ensures texts { IfOk result (λ keyed. map key_of keyed.items ≡ map text.expr_text operands.items) }
{
    let mut keyed = Vec::with_capacity(alloc, operands.len())?;
    for item in operands {
        let text = text_of(alloc, &item)?;
        keyed.push(Keyed { text, item })?;
    }
    Ok(keyed)
}

/// The text of an operand.
fn text_of(alloc: Global, operand: &ClassExpr) -> Result<Vec<u8>, NoMemory>
    ensures { IfOk result (λ made. made.items ≡ text.expr_text operand.now) }
{
    let mut text = Vec::new(alloc);
    expr_text(alloc, operand, &mut text)?;
    Ok(text)
}

/// The group of the operands.
fn group_expr(group: Group, operands: Items<ClassExpr>) -> ClassExpr
    ensures { result ≡ spec.group_expr (group_meant group) operands }
{
    match group {
        Group::Intersection => ClassExpr::And(operands),
        Group::Union => ClassExpr::Or(operands),
    }
}

/// That two expressions are equivalent, the one with the least text first.
fn pair_of(alloc: Global, one: ClassExpr, other: ClassExpr) -> Result<Body, NoMemory>
    ensures { IfOk result (λ body. body ≡ spec.expr_pair one other) }
{
    if exprs_in_order(alloc, &one, &other)? {
        Ok(Body::Equiv(one, other))
    } else {
        Ok(Body::Equiv(other, one))
    }
}
