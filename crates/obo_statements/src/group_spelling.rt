//! `clauses_of_group`: the clauses of a Term that say an axiom together.
ghost use Rattle.std.specs.Prelude.{◌≡◌, IfOk, IfSome, map};
ghost use Rattle.std.specs.Option.{option_and_then, option_map};
ghost use Rattle.clause_printer.specs.Printing.{value_text};
ghost use Rattle.text_sets.specs.Parts.{each_some};
ghost use Rattle.text_sets.specs.Sets.{AreTold};
ghost use Rattle.obo_notes.specs.Context.{writing_in};
ghost use Rattle.obo_notes.specs.Notes as spec_notes;
ghost use Rattle.obo_statements.specs.Groups as spec;
ghost use Rattle.obo_statements.specs.Groups.{group_meant};
ghost use Rattle.obo_statements.specs.inner.PlainGroups as plain;
ghost use Rattle.obo_statements.specs.inner.Spelled.{plain_clause, sorted_values};

use crate::Group;
use crate::ids::{class_id, is_class};
use crate::values::restriction_value;
use obo_clause::{Clause, Qualifier, Value};
use obo_notes::{qualifiers_of, sorted};
use owl_axioms::{Axiom, Body, ClassExpr};
use rel_io::{Bytes, Iri, Items, NoMemory};
use std::alloc::Global;

/// The clauses of a Term with this IRI that say the axiom together, in an ontology of this name, in printed order; the
/// first has its annotations as qualifiers. `None` exactly where the axiom is no such group of this class, or a part of it
/// has no form. It takes time in proportion to the axiom, but for the sorts of values and qualifiers.
#[tactic(auto, using(crate::proofs::PlainGroups::group_is_spelled_plainly))]
pub fn clauses_of_group(
    alloc: Global,
    space: &Bytes,
    x: &Iri,
    group: Group,
    stated: &Axiom,
) -> Result<Option<Items<Clause>>, NoMemory>
    ensures exact { IfOk result (λ clauses. clauses ≡
        spec.group_spelling (writing_in space.now) x.now (group_meant group) stated.now) }
{
    clauses_by_values(alloc, space, x, group, stated)
}

/// The same, by the values of the operands: no operand has qualifiers with a meaning of their own.
fn clauses_by_values(
    alloc: Global,
    space: &Bytes,
    x: &Iri,
    group: Group,
    stated: &Axiom,
) -> Result<Option<Items<Clause>>, NoMemory>
    ensures { IfOk result (λ clauses. clauses ≡
        plain.plain_group_in_body (writing_in space.now) x.now (group_meant group) stated.now.sides stated.now.body) }
{
    match &stated.body {
        Body::Equiv(one, other) => match other_expr(x, one, other) {
            Some(whole) => with_sides(alloc, space, group, whole, stated),
            None => Ok(None),
        },
        _ => Ok(None),
    }
}

/// The clauses of a group, with the annotations of the axiom.
#[tactic(auto, using(crate::proofs::GroupClauses::group_by_values))]
fn with_sides(
    alloc: Global,
    space: &Bytes,
    group: Group,
    whole: &ClassExpr,
    stated: &Axiom,
) -> Result<Option<Items<Clause>>, NoMemory>
    ensures { IfOk result (λ clauses. clauses ≡
        option_and_then (λ qualifiers. plain.plain_clauses_with (writing_in space.now) (group_meant group) qualifiers whole.now)
        (spec_notes.qualifiers_of stated.now.sides)) }
{
    let Some(qualifiers) = qualifiers_of(alloc, stated.sides.as_slice())? else {
        return Ok(None);
    };
    match values_of(alloc, space, group, whole)? {
        Some(values) => Ok(Some(clauses(alloc, group, qualifiers, values)?)),
        None => Ok(None),
    }
}

/// The other expression of a pair.
fn other_expr<'a>(x: &Iri, one: &'a ClassExpr, two: &'a ClassExpr) -> Option<&'a ClassExpr>
    ensures { option_map (λ other. other.now) result ≡ spec.other_expr x.now one.now two.now }
{
    if is_class(x, one) {
        Some(two)
    } else if is_class(x, two) {
        Some(one)
    } else {
        None
    }
}

/// The operands of an expression that is such a group.
fn operands_of(group: Group, whole: &ClassExpr) -> Option<&[ClassExpr]>
    ensures { option_map (λ operands. operands.now) result ≡ spec.group_operands (group_meant group) whole.now }
{
    match (group, whole) {
        (Group::Intersection, ClassExpr::And(operands)) => Some(operands.as_slice()),
        (Group::Union, ClassExpr::Or(operands)) => Some(operands.as_slice()),
        _ => None,
    }
}

/// The values of a group in the order of what is printed of them.
fn values_of(
    alloc: Global,
    space: &Bytes,
    group: Group,
    whole: &ClassExpr,
) -> Result<Option<Items<Value>>, NoMemory>
    ensures { IfOk result (λ values. values ≡ sorted_values (writing_in space.now) (group_meant group) whole.now) }
{
    let Some(operands) = operands_of(group, whole) else {
        return Ok(None);
    };
    match each_value(alloc, space, group, operands)? {
        Some(values) => Ok(Some(sorted(alloc, values)?)),
        None => Ok(None),
    }
}

/// The values of operands, in their order, where each has one.
fn each_value(
    alloc: Global,
    space: &Bytes,
    group: Group,
    operands: &[ClassExpr],
) -> Result<Option<Vec<Value>>, NoMemory>
    ensures values { IfOk result (λ found. option_map (λ values. values.items) found ≡
        each_some (spec.operand_value (writing_in space.now) (group_meant group)) operands.now) }
    ensures told { IfOk result (λ found. IfSome found (λ values. AreTold value_text values.items)) }
{
    let mut values = Vec::new(alloc);
    for operand in operands {
        match operand_value(alloc, space, group, operand)? {
            Some(value) => values.push(value)?,
            None => return Ok(None),
        }
    }
    Ok(Some(values))
}

/// The value of an operand: the id of a class, or in an intersection what has a filler of a class.
fn operand_value(
    alloc: Global,
    space: &Bytes,
    group: Group,
    operand: &ClassExpr,
) -> Result<Option<Value>, NoMemory>
    ensures { IfOk result (λ found. found ≡ spec.operand_value (writing_in space.now) (group_meant group) operand.now) }
{
    match class_id(alloc, space, operand)? {
        Some(id) => Ok(Some(Value::Id(id))),
        None => match group {
            Group::Intersection => restriction_value(alloc, space, operand),
            Group::Union => Ok(None),
        },
    }
}

/// The clauses of values in their order, the first with all qualifiers.
fn clauses(
    alloc: Global,
    group: Group,
    qualifiers: Items<Qualifier>,
    values: Items<Value>,
) -> Result<Items<Clause>, NoMemory>
    ensures { IfOk result (λ clauses. clauses ≡ plain.plain_group_clauses (group_meant group) qualifiers values) }
{
    let mut clauses = plain_clauses(alloc, group, values.into_vec())?;
    if let Some(first) = clauses.first_mut() {
        first.qualifiers = qualifiers;
    }
    Ok(Items::from_vec(clauses))
}

/// The clauses of values in their order, without qualifiers.
fn plain_clauses(alloc: Global, group: Group, values: Vec<Value>) -> Result<Vec<Clause>, NoMemory>
    ensures { IfOk result (λ clauses. clauses.items ≡ map (plain_clause (group_meant group)) values.items) }
{
    let mut clauses = Vec::with_capacity(alloc, values.len())?;
    for value in values {
        let clause = clause_of(alloc, group, value)?;
        clauses.push(clause)?;
    }
    Ok(clauses)
}

/// The tag of the clauses of a group.
fn tag_of(group: Group) -> &'static [u8]
    ensures { result.now ≡ spec.group_tag (group_meant group) }
{
    match group {
        Group::Intersection => b"intersection_of",
        Group::Union => b"union_of",
    }
}

/// The clause of a value without qualifiers.
fn clause_of(alloc: Global, group: Group, value: Value) -> Result<Clause, NoMemory>
    ensures { IfOk result (λ clause. clause ≡ plain_clause (group_meant group) value) }
{
    let tag = Bytes::from_slice(alloc, tag_of(group))?;
    Ok(Clause {
        tag,
        value,
        qualifiers: Items::from_vec(Vec::new(alloc)),
    })
}
