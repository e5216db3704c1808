//! The groups of Terms, and which of them are short.
ghost use Rattle.std.specs.Prelude.{◌≡◌, IfOk, None, OnOk, filter, map};
ghost use Rattle.std.specs.BTreeMap.{get};
ghost use Rattle.std.specs.Cmp.Lexicographic.{slice_cmp};
ghost use Rattle.std.specs.Option.{option_copied};
ghost use Rattle.std.specs.Ordering.{nat_cmp};
ghost use Rattle.obo_frames.specs.Documents.{least_line};
ghost use Rattle.obo_frames.specs.Groups as spec;
ghost use Rattle.obo_frames.specs.inner.Summary.{AddsOperand, IsSummaryOf, is_one, joined};

use crate::Placed;
use crate::name::space_of;
use crate::standing::lesser_line;
use iri_map::iri_of;
use obo_clause::Value;
use obo_tags::FrameKind;
use rel_io::{Bytes, Dup, Iri, NoMemory};
use std::alloc::Global;
use std::collections::BTreeMap;

/// The expression that a clause of a group stands for.
#[derive(Drop)]
enum Expression {
    /// The class of this IRI.
    Class(Iri),
    /// What some filler of a role is: the IRIs of the role and of the filler.
    Restriction(Iri, Iri),
}

/// A clause of a group.
#[derive(Drop)]
struct Operand {
    /// The number of its line.
    line: u32,
    /// The IRI of its Term.
    group: Iri,
    /// The expression that it stands for.
    expression: Expression,
}

/// The expressions of a group.
#[derive(Drop)]
enum Summary {
    /// All clauses stand for this one.
    One(Expression),
    /// They stand for more than one.
    Many,
}

impl Dup for Expression {
    fn copy(&self, alloc: Global) -> Result<Expression, NoMemory> {
        match self {
            Expression::Class(class) => Ok(Expression::Class(class.copy(alloc)?)),
            Expression::Restriction(role, filler) => {
                let role = role.copy(alloc)?;
                let filler = filler.copy(alloc)?;
                Ok(Expression::Restriction(role, filler))
            }
        }
    }
}

/// The least line of a clause of a short group.
pub fn short_line(alloc: Global, placed: &[Placed]) -> Result<Option<u32>, NoMemory>
    ensures { IfOk result (λ least. least ≡ least_line None (spec.short_lines placed.now)) }
{
    let name = space_of(alloc, placed)?;
    let least = least_short(alloc, None, b"intersection_of", &name, placed)?;
    least_short(alloc, least, b"union_of", &name, placed)
}

/// The least line of a clause of a short group of this tag, and of a line before them.
fn least_short(
    alloc: Global,
    best: Option<u32>,
    tag: &[u8],
    name: &Bytes,
    placed: &[Placed],
) -> Result<Option<u32>, NoMemory>
    ensures { IfOk result
        (λ least. least ≡ least_line best (map (λ one. one.line) (spec.short_in (spec.operands_in tag.now name.now placed.now)))) }
{
    let operands = operands_in(alloc, tag, name, placed)?;
    let groups = summed(alloc, operands.as_slice())?;
    Ok(least_of_one(best, operands.as_slice(), &groups))
}

/// The clauses of all groups of this tag.
fn operands_in(
    alloc: Global,
    tag: &[u8],
    name: &Bytes,
    placed: &[Placed],
) -> Result<Vec<Operand>, NoMemory>
    ensures { IfOk result (λ operands. operands.items ≡ spec.operands_in tag.now name.now placed.now) }
{
    let mut operands = Vec::new(alloc);
    for one in placed {
        if let Some(operand) = operand_in(alloc, tag, name, one)? {
            operands.push(operand)?;
        }
    }
    Ok(operands)
}

/// A placed clause as one of a group of this tag.
fn operand_in(
    alloc: Global,
    tag: &[u8],
    name: &Bytes,
    placed: &Placed,
) -> Result<Option<Operand>, NoMemory>
    ensures { IfOk result (λ operand. operand ≡ spec.operand_in tag.now name.now placed.now) }
{
    if !matches!(placed.frame, FrameKind::Term) || placed.clause.tag.as_slice() != tag {
        return Ok(None);
    }
    let group = iri_of(alloc, &placed.id, name)?;
    match expression_of(alloc, name, &placed.clause.value)? {
        Some(expression) => Ok(Some(Operand {
            line: placed.line,
            group,
            expression,
        })),
        None => Ok(None),
    }
}

/// The expression that a value stands for.
fn expression_of(alloc: Global, name: &Bytes, value: &Value) -> Result<Option<Expression>, NoMemory>
    ensures { IfOk result (λ expression. expression ≡ spec.expression_of name.now value.now) }
{
    match value {
        Value::Id(class) => Ok(Some(Expression::Class(iri_of(alloc, class, name)?))),
        Value::Pair(role, filler) => {
            let role = iri_of(alloc, role, name)?;
            let filler = iri_of(alloc, filler, name)?;
            Ok(Some(Expression::Restriction(role, filler)))
        }
        _ => Ok(None),
    }
}

/// The groups of these clauses, each under the IRI of its Term.
fn summed(alloc: Global, operands: &[Operand]) -> Result<BTreeMap<Iri, Summary>, NoMemory>
    ensures { IfOk result (IsSummaryOf operands.now) }
{
    let mut groups = BTreeMap::new(alloc);
    for operand in operands {
        add_operand(alloc, &mut groups, operand)?;
    }
    Ok(groups)
}

/// One clause more.
fn add_operand(
    alloc: Global,
    groups: &mut BTreeMap<Iri, Summary>,
    operand: &Operand,
) -> Result<(), NoMemory>
    ensures { OnOk result (AddsOperand groups.old groups.new operand.now) }
{
    let group = operand.group.copy(alloc)?;
    let held = joined(alloc, groups.get(&operand.group), &operand.expression)?;
    drop(groups.insert(group, held)?);
    Ok(())
}

/// A group with one expression more.
fn joined(
    alloc: Global,
    held: Option<&Summary>,
    expression: &Expression,
) -> Result<Summary, NoMemory>
    ensures { IfOk result (λ summary. summary ≡ joined (option_copied held.entry) expression.now) }
{
    match held {
        None => Ok(Summary::One(expression.copy(alloc)?)),
        Some(Summary::One(held)) if is_same(held, expression) => {
            Ok(Summary::One(held.copy(alloc)?))
        }
        Some(_) => Ok(Summary::Many),
    }
}

/// Whether the two are the same expression.
fn is_same(one: &Expression, other: &Expression) -> bool
    ensures { result ≡ spec.same_expression one.now other.now }
{
    match (one, other) {
        (Expression::Class(one), Expression::Class(other)) => one == other,
        (Expression::Restriction(role, filler), Expression::Restriction(other, another)) => {
            role == other && filler == another
        }
        _ => false,
    }
}

/// The least line of a clause whose group has one expression alone, and of a line before them.
fn least_of_one(
    best: Option<u32>,
    operands: &[Operand],
    groups: &BTreeMap<Iri, Summary>,
) -> Option<u32>
    ensures { result ≡ least_line best
        (map (λ one. one.line) (filter (λ one. is_one (get (slice_cmp nat_cmp) groups.now one.group)) operands.now)) }
{
    let mut least = best;
    for operand in operands {
        if has_one(groups, &operand.group) {
            least = Some(lesser_line(least, operand.line));
        }
    }
    least
}

/// Whether the group of this IRI has one expression alone.
fn has_one(groups: &BTreeMap<Iri, Summary>, group: &Iri) -> bool
    ensures { result ≡ is_one (get (slice_cmp nat_cmp) groups.now group.now) }
{
    matches!(groups.get(group), Some(Summary::One(_)))
}
