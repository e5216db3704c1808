//! Indexes of the axioms, by what a fact leads with.
ghost use Rattle.std.specs.Prelude.{◌≡◌, ℕ, ◌<◌, ◌≤◌, ◌++◌, Option, length, map, slice_get, IfOk, OnOk};
ghost use Rattle.fact_rows.specs.Member.{In};
ghost use Rattle.fact_rows.specs.Rows.{row};
ghost use Rattle.el_numbers.specs.Proper.{IsProper};
ghost use Rattle.el_numbers.specs.inner.Indexes.{IsIndexOf, IsPairIndexOf, IsIndexed, swapped, by_second, restrictions, restrictions_at, intersections, intersections_at};

use crate::{NumberedPart, Shape};
use fact_rows::{
    Numbers, Pairs, empty_numbers, empty_pairs, numbers_at, push_number_at, push_pair_at,
};
use std::alloc::{AllocError, Global};

/// The axioms by what a fact leads with.
#[derive(Drop)]
pub struct Indexes {
    /// The super classes of a class, as told.
    pub told: Vec<Numbers>,
    /// The intersections that an expression is an operand of.
    pub ands: Vec<Numbers>,
    /// The classes that are disjoint with a class.
    pub disjoint: Vec<Numbers>,
    /// The super roles of a role.
    pub roles: Vec<Numbers>,
    /// The domains of a role.
    pub domains: Vec<Numbers>,
    /// The restrictions with a filler: their roles and their numbers.
    pub somes: Vec<Pairs>,
    /// The chains that begin with a role: the second role and the implied one.
    pub first: Vec<Pairs>,
    /// The chains that end with a role: the first role and the implied one.
    pub second: Vec<Pairs>,
}

/// The values of each key, in rows.
fn index_numbers(
    alloc: Global,
    count: u32,
    pairs: &[(u32, u32)],
) -> Result<Vec<Numbers>, AllocError>
    requires { (k v : ℕ) → In (k, v) pairs.now → k < count }
    ensures { IfOk result (λ rows. IsIndexOf pairs.now rows.items) }
{
    let mut rows = empty_numbers(alloc, count)?;
    for (key, value) in pairs {
        push_number_at(&mut rows, *key, *value)?;
    }
    Ok(rows)
}

/// The pairs of each key, in rows.
fn index_pairs(
    alloc: Global,
    count: u32,
    triples: &[(u32, u32, u32)],
) -> Result<Vec<Pairs>, AllocError>
    requires { (k v w : ℕ) → In (k, v, w) triples.now → k < count }
    ensures { IfOk result (λ rows. IsPairIndexOf triples.now rows.items) }
{
    let mut rows = empty_pairs(alloc, count)?;
    for (key, one, other) in triples {
        push_pair_at(&mut rows, *key, (*one, *other))?;
    }
    Ok(rows)
}

/// The pairs, and behind them the same turned round.
fn both_ways(alloc: Global, pairs: &[(u32, u32)]) -> Result<Vec<(u32, u32)>, AllocError>
    ensures { IfOk result (λ made. made.items ≡ pairs.now ++ map swapped pairs.now) }
{
    let mut made = Vec::from_slice(alloc, pairs)?;
    for (one, other) in pairs {
        made.push((*other, *one))?;
    }
    Ok(made)
}

/// The chains, each with its second role before its first.
fn second_first(
    alloc: Global,
    chains: &[(u32, u32, u32)],
) -> Result<Vec<(u32, u32, u32)>, AllocError>
    ensures { IfOk result (λ made. made.items ≡ map by_second chains.now) }
{
    let mut made = Vec::new(alloc);
    for (first, second, implied) in chains {
        made.push((*second, *first, *implied))?;
    }
    Ok(made)
}

/// What an expression is.
pub fn shape_at(shapes: &[Shape], at: u32) -> Option<Shape>
    ensures { result ≡ slice_get shapes.now at }
{
    shapes.get(at as usize).copied()
}

/// Adds a restriction: its filler, its role, its number.
fn push_restriction(
    made: &mut Vec<(u32, u32, u32)>,
    shape: Option<Shape>,
    at: u32,
) -> Result<(), AllocError>
    ensures { OnOk result (made.new.items ≡ made.old.items ++ restrictions_at shape at) }
{
    match shape {
        None => Ok(()),
        Some(Shape::Name) => Ok(()),
        Some(Shape::And) => Ok(()),
        Some(Shape::Some(role, filler)) => {
            made.push((filler, role, at))?;
            Ok(())
        }
    }
}

/// The restrictions below a number: each with its filler, its role, its number.
fn list_restrictions(
    alloc: Global,
    count: u32,
    shapes: &[Shape],
) -> Result<Vec<(u32, u32, u32)>, AllocError>
    ensures { IfOk result (λ made. made.items ≡ restrictions shapes.now count) }
{
    let mut made = Vec::new(alloc);
    for at in 0..count {
        push_restriction(&mut made, shape_at(shapes, at), at)?;
    }
    Ok(made)
}

/// Adds the operands of an intersection, each beside its number.
fn push_operands(made: &mut Vec<(u32, u32)>, at: u32, operands: &[u32]) -> Result<(), AllocError>
    ensures { OnOk result (made.new.items ≡ made.old.items ++ intersections_at at operands.now) }
{
    for operand in operands {
        made.push((*operand, at))?;
    }
    Ok(())
}

/// The operands of the intersections below a number, each beside its intersection.
fn list_operands(
    alloc: Global,
    count: u32,
    operands: &[Numbers],
) -> Result<Vec<(u32, u32)>, AllocError>
    ensures { IfOk result (λ made. made.items ≡ intersections operands.now count) }
{
    let mut made = Vec::new(alloc);
    for at in 0..count {
        push_operands(&mut made, at, numbers_at(operands, at))?;
    }
    Ok(made)
}

/// The indexes of a part.
pub fn indexes_of(alloc: Global, part: &NumberedPart) -> Result<Indexes, AllocError>
    requires { IsProper part.now }
    ensures { IfOk result (λ indexes. IsIndexed part.now indexes) }
{
    let count = part.shapes.len() as u32;
    let role_count = part.role_count;
    let operands = list_operands(alloc, count, &part.operands)?;
    let disjoints = both_ways(alloc, &part.disjoints)?;
    let restrictions = list_restrictions(alloc, count, &part.shapes)?;
    let seconds = second_first(alloc, &part.chains)?;
    let told = index_numbers(alloc, count, &part.inclusions)?;
    let ands = index_numbers(alloc, count, operands.as_slice())?;
    let disjoint = index_numbers(alloc, count, disjoints.as_slice())?;
    let roles = index_numbers(alloc, role_count, &part.role_inclusions)?;
    let domains = index_numbers(alloc, role_count, &part.domains)?;
    let somes = index_pairs(alloc, count, restrictions.as_slice())?;
    let first = index_pairs(alloc, role_count, &part.chains)?;
    let second = index_pairs(alloc, role_count, seconds.as_slice())?;
    Ok(Indexes {
        told,
        ands,
        disjoint,
        roles,
        domains,
        somes,
        first,
        second,
    })
}
