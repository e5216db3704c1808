//! Small parts by hand: each rule alone, and rules that meet. Thing is 0, Nothing is 1, classes come next.
mod proper;

use crate::{Fact, NumberedPart, SaturationFault, Shape, Table, saturate};
use fact_rows::empty_numbers;
use hash_key::HashKey;
use proper::is_proper;
use std::alloc::{AllocError, Global};
use std::test::Fail;

/// One thing that a part says.
#[derive(Clone, Copy)]
enum Told {
    /// An intersection has an operand.
    Operand(u32, u32),
    Inclusion(u32, u32),
    Disjoint(u32, u32),
    RoleInclusion(u32, u32),
    Chain(u32, u32, u32),
    Domain(u32, u32),
}

/// Adds one thing to a part.
fn tell(part: &mut NumberedPart, told: Told) -> Result<(), AllocError> {
    match told {
        Told::Operand(at, operand) => match part.operands.get_mut(at as usize) {
            Some(row) => row.push(operand)?,
            None => {}
        },
        Told::Inclusion(lower, upper) => part.inclusions.push((lower, upper))?,
        Told::Disjoint(one, other) => part.disjoints.push((one, other))?,
        Told::RoleInclusion(lower, upper) => part.role_inclusions.push((lower, upper))?,
        Told::Chain(first, second, implied) => part.chains.push((first, second, implied))?,
        Told::Domain(role, class) => part.domains.push((role, class))?,
    }
    Ok(())
}

/// A part of three roles with these shapes, which says these things.
fn part_of(alloc: Global, shapes: &[Shape], all: &[Told]) -> Result<NumberedPart, AllocError> {
    let count = u32::try_from(shapes.len()).unwrap_or(0);
    let mut part = NumberedPart {
        shapes: Vec::from_slice(alloc, shapes)?,
        operands: empty_numbers(alloc, count)?,
        role_count: 3,
        inclusions: Vec::new(alloc),
        disjoints: Vec::new(alloc),
        role_inclusions: Vec::new(alloc),
        chains: Vec::new(alloc),
        domains: Vec::new(alloc),
    };
    for told in all {
        tell(&mut part, *told)?;
    }
    Ok(part)
}

/// The table of a part.
fn table_of(
    alloc: Global,
    shapes: &[Shape],
    all: &[Told],
    limit: u64,
) -> Result<Table, SaturationFault> {
    let part = part_of(alloc, shapes, all)?;
    if !is_proper(&part) {
        return Err(SaturationFault::NoMemory);
    }
    saturate(alloc, HashKey::new(7), &part, limit)
}

/// Whether a table has a fact.
fn has(table: &Table, fact: Fact) -> bool {
    match fact {
        Fact::Below(lower, upper) => table.below(lower, upper),
        Fact::Link(start, role, end) => table.link(start, role, end),
    }
}

/// How many of the facts a table has.
fn found(table: &Table, wanted: &[Fact]) -> u64 {
    let mut count: u64 = 0;
    for fact in wanted {
        if has(table, *fact) {
            count = count.wrapping_add(1);
        }
    }
    count
}

/// The shapes, what is told, and the facts besides that each expression is below itself and below Thing.
#[test]
fn rules_by_hand(rt: HostRuntime) -> Result<(), Fail> {
    let some = Shape::Some(0, 3);
    for (rule, shapes, told, wanted) in [
        (
            "an inclusion, twice",
            [
                Shape::Name,
                Shape::Name,
                Shape::Name,
                Shape::Name,
                Shape::Name,
            ]
            .as_slice(),
            [Told::Inclusion(3, 4), Told::Inclusion(2, 3)].as_slice(),
            [Fact::Below(2, 3), Fact::Below(3, 4), Fact::Below(2, 4)].as_slice(),
        ),
        (
            "a cycle",
            [Shape::Name, Shape::Name, Shape::Name, Shape::Name].as_slice(),
            [Told::Inclusion(2, 3), Told::Inclusion(3, 2)].as_slice(),
            [Fact::Below(2, 3), Fact::Below(3, 2)].as_slice(),
        ),
        (
            "operands of an intersection",
            [
                Shape::Name,
                Shape::Name,
                Shape::Name,
                Shape::Name,
                Shape::And,
                Shape::Name,
            ]
            .as_slice(),
            [
                Told::Operand(4, 2),
                Told::Operand(4, 3),
                Told::Inclusion(5, 4),
            ]
            .as_slice(),
            [
                Fact::Below(4, 2),
                Fact::Below(4, 3),
                Fact::Below(5, 4),
                Fact::Below(5, 2),
                Fact::Below(5, 3),
            ]
            .as_slice(),
        ),
        (
            "an intersection of operands",
            [
                Shape::Name,
                Shape::Name,
                Shape::Name,
                Shape::Name,
                Shape::And,
                Shape::Name,
            ]
            .as_slice(),
            [
                Told::Operand(4, 2),
                Told::Operand(4, 3),
                Told::Inclusion(5, 2),
                Told::Inclusion(5, 3),
            ]
            .as_slice(),
            [
                Fact::Below(4, 2),
                Fact::Below(4, 3),
                Fact::Below(5, 4),
                Fact::Below(5, 2),
                Fact::Below(5, 3),
            ]
            .as_slice(),
        ),
        (
            "disjoint classes",
            [
                Shape::Name,
                Shape::Name,
                Shape::Name,
                Shape::Name,
                Shape::Name,
            ]
            .as_slice(),
            [
                Told::Disjoint(3, 2),
                Told::Inclusion(4, 2),
                Told::Inclusion(4, 3),
            ]
            .as_slice(),
            [Fact::Below(4, 2), Fact::Below(4, 3), Fact::Below(4, 1)].as_slice(),
        ),
        (
            "a class disjoint from itself",
            [Shape::Name, Shape::Name, Shape::Name].as_slice(),
            [Told::Disjoint(2, 2)].as_slice(),
            [Fact::Below(2, 1)].as_slice(),
        ),
        (
            "a link and an implied role",
            [Shape::Name, Shape::Name, Shape::Name, Shape::Name, some].as_slice(),
            [Told::Inclusion(2, 4), Told::RoleInclusion(0, 1)].as_slice(),
            [
                Fact::Below(2, 4),
                Fact::Link(2, 0, 3),
                Fact::Link(4, 0, 3),
                Fact::Link(2, 1, 3),
                Fact::Link(4, 1, 3),
            ]
            .as_slice(),
        ),
        (
            "a chain",
            [
                Shape::Name,
                Shape::Name,
                Shape::Name,
                Shape::Name,
                Shape::Name,
                some,
                Shape::Some(1, 4),
            ]
            .as_slice(),
            [
                Told::Inclusion(2, 5),
                Told::Inclusion(3, 6),
                Told::Chain(0, 1, 2),
            ]
            .as_slice(),
            [
                Fact::Below(2, 5),
                Fact::Below(3, 6),
                Fact::Link(2, 0, 3),
                Fact::Link(5, 0, 3),
                Fact::Link(3, 1, 4),
                Fact::Link(6, 1, 4),
                Fact::Link(2, 2, 4),
                Fact::Link(5, 2, 4),
            ]
            .as_slice(),
        ),
        (
            "a restriction of a super class, where it occurs",
            [
                Shape::Name,
                Shape::Name,
                Shape::Name,
                Shape::Name,
                Shape::Name,
                some,
                Shape::Some(0, 4),
            ]
            .as_slice(),
            [Told::Inclusion(2, 5), Told::Inclusion(3, 4)].as_slice(),
            [
                Fact::Below(2, 5),
                Fact::Below(3, 4),
                Fact::Below(2, 6),
                Fact::Below(5, 6),
                Fact::Link(2, 0, 3),
                Fact::Link(5, 0, 3),
                Fact::Link(6, 0, 4),
                Fact::Link(2, 0, 4),
                Fact::Link(5, 0, 4),
            ]
            .as_slice(),
        ),
        (
            "a domain",
            [
                Shape::Name,
                Shape::Name,
                Shape::Name,
                Shape::Name,
                Shape::Name,
                some,
            ]
            .as_slice(),
            [Told::Inclusion(2, 5), Told::Domain(0, 4)].as_slice(),
            [
                Fact::Below(2, 5),
                Fact::Below(2, 4),
                Fact::Below(5, 4),
                Fact::Link(2, 0, 3),
                Fact::Link(5, 0, 3),
            ]
            .as_slice(),
        ),
        (
            "a link to what is below Nothing",
            [Shape::Name, Shape::Name, Shape::Name, Shape::Name, some].as_slice(),
            [Told::Inclusion(2, 4), Told::Inclusion(3, 1)].as_slice(),
            [
                Fact::Below(2, 4),
                Fact::Below(3, 1),
                Fact::Below(2, 1),
                Fact::Below(4, 1),
                Fact::Link(2, 0, 3),
                Fact::Link(4, 0, 3),
            ]
            .as_slice(),
        ),
        (
            "Nothing as a filler",
            [Shape::Name, Shape::Name, Shape::Name, Shape::Some(0, 1)].as_slice(),
            [Told::Inclusion(2, 3)].as_slice(),
            [
                Fact::Below(2, 3),
                Fact::Below(3, 1),
                Fact::Below(2, 1),
                Fact::Link(2, 0, 1),
                Fact::Link(3, 0, 1),
            ]
            .as_slice(),
        ),
    ] {
        let own = (shapes.len() as u64).wrapping_mul(2).wrapping_sub(1);
        let all = own.wrapping_add(wanted.len() as u64);
        let table = table_of(rt.alloc(), shapes, told, all)?;
        assert_eq!(rt; table.facts(), all, "{rule}");
        assert_eq!(rt; found(&table, wanted), wanted.len() as u64, "{rule}");
        let refused = table_of(rt.alloc(), shapes, told, all.wrapping_sub(1));
        assert!(rt;
            is_too_many(&refused, all.wrapping_sub(1)),
            "{rule}, a fact less"
        );
        let refused = table_of(rt.alloc(), shapes, told, 0);
        assert!(rt; is_too_many(&refused, 0), "{rule}, no fact");
    }
    Ok(())
}

/// Whether the answer is that more facts are derived than a limit.
fn is_too_many(answer: &Result<Table, SaturationFault>, limit: u64) -> bool {
    match answer {
        Err(SaturationFault::TooManyFacts(told)) => *told == limit,
        _ => false,
    }
}

/// Twenty classes from 2 on, their intersections 22 and 23, and two classes more.
fn wide_shapes(alloc: Global) -> Result<Vec<Shape>, AllocError> {
    let mut shapes = Vec::new(alloc);
    for at in 0..26 {
        shapes.push(if at == 22 || at == 23 {
            Shape::And
        } else {
            Shape::Name
        })?;
    }
    Ok(shapes)
}

/// Both intersections have all twenty classes, the one upwards, the other downwards. Each class is below the next, the
/// first of the two further ones is below the first, and the second below the second.
fn wide_told(alloc: Global) -> Result<Vec<Told>, AllocError> {
    let mut told = Vec::new(alloc);
    for at in 2..22 {
        told.push(Told::Operand(22, at))?;
        told.push(Told::Operand(23, 23 - at))?;
    }
    for at in 2..21 {
        told.push(Told::Inclusion(at, at + 1))?;
    }
    told.push(Told::Inclusion(24, 2))?;
    told.push(Told::Inclusion(25, 3))?;
    Ok(told)
}

/// Intersections whose operands are found one after another, from either end, and that one expression misses by one
/// operand. The facts: 51 of their own, 190 among the twenty classes, 21 of each intersection, 2 more of the first class,
/// and 22 and 19 of the further ones.
#[test]
fn wide_intersections(rt: HostRuntime) -> Result<(), Fail> {
    let shapes = wide_shapes(rt.alloc())?;
    let told = wide_told(rt.alloc())?;
    let table = table_of(rt.alloc(), shapes.as_slice(), told.as_slice(), 326)?;
    assert_eq!(rt; table.facts(), 326);
    assert!(rt; table.below(24, 22) && table.below(24, 23));
    assert!(rt; !table.below(25, 22) && !table.below(25, 23));
    Ok(())
}
