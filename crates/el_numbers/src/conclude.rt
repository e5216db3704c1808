//! What follows at once from a fact and the table: for each rule with that fact among its premises. The letters are those
//! of the rules.
ghost use Rattle.std.specs.Prelude.{◌≡◌, ◌++◌, OnOk};
ghost use Rattle.fact_rows.specs.Rows.{row};
ghost use Rattle.el_numbers.specs.inner.Conclude.{told_ends, belows, links, shape_links, back_belows, link_belows, first_links, second_links, and_belows, clashes, back_nothings, role_links, link_nothing, below_conclusions, link_conclusions, conclusions};
ghost use Rattle.el_numbers.specs.inner.Met.{IsMet};

use crate::index::{Indexes, shape_at};
use crate::met::{Met, is_met};
use crate::part::NOTHING;
use crate::storing::FactRows;
use crate::{Fact, NumberedPart, Shape};
use fact_rows::{NumberSet, Pairs, number_set_at, numbers_at, pair_set_at, pairs_at, set_has};
use std::alloc::AllocError;

/// C is below each of these.
fn push_told(out: &mut Vec<Fact>, c: u32, ends: &[u32]) -> Result<(), AllocError>
    ensures { OnOk result (out.new.items ≡ out.old.items ++ told_ends c ends.now) }
{
    for e in ends {
        out.push(Fact::Below(c, *e))?;
    }
    Ok(())
}

/// B is below each restriction with this role.
fn push_belows(out: &mut Vec<Fact>, b: u32, r: u32, pairs: &[(u32, u32)]) -> Result<(), AllocError>
    ensures { OnOk result (out.new.items ≡ out.old.items ++ belows b r pairs.now) }
{
    for (role, node) in pairs {
        if *role == r {
            out.push(Fact::Below(b, *node))?;
        }
    }
    Ok(())
}

/// C has a link to E by each role that the chains with this role imply.
fn push_links(
    out: &mut Vec<Fact>,
    c: u32,
    e: u32,
    s: u32,
    pairs: &[(u32, u32)],
) -> Result<(), AllocError>
    ensures { OnOk result (out.new.items ≡ out.old.items ++ links c e s pairs.now) }
{
    for (role, whole) in pairs {
        if *role == s {
            out.push(Fact::Link(c, *whole, e))?;
        }
    }
    Ok(())
}

/// C has the link of a restriction.
fn push_shape_links(out: &mut Vec<Fact>, c: u32, shape: Option<Shape>) -> Result<(), AllocError>
    ensures { OnOk result (out.new.items ≡ out.old.items ++ shape_links c shape) }
{
    match shape {
        None => Ok(()),
        Some(Shape::Name) => Ok(()),
        Some(Shape::And) => Ok(()),
        Some(Shape::Some(r, d)) => {
            out.push(Fact::Link(c, r, d))?;
            Ok(())
        }
    }
}

/// What has a link is below the restrictions with its role.
fn push_back_belows(
    out: &mut Vec<Fact>,
    somes: &[(u32, u32)],
    back: &[(u32, u32)],
) -> Result<(), AllocError>
    ensures { OnOk result (out.new.items ≡ out.old.items ++ back_belows somes.now back.now) }
{
    if somes.is_empty() {
        return Ok(());
    }
    for (r, b) in back {
        push_belows(out, *b, *r, somes)?;
    }
    Ok(())
}

/// C, with an r-link, is below the restrictions with r whose fillers are among these.
fn push_link_belows(
    out: &mut Vec<Fact>,
    somes: &[Pairs],
    c: u32,
    r: u32,
    below: &[u32],
) -> Result<(), AllocError>
    ensures { OnOk result (out.new.items ≡ out.old.items ++ link_belows somes.now c r below.now) }
{
    for e in below {
        push_belows(out, c, r, pairs_at(somes, *e))?;
    }
    Ok(())
}

/// C goes on from the first link of a chain.
fn push_first_links(
    out: &mut Vec<Fact>,
    c: u32,
    first: &[(u32, u32)],
    links: &[(u32, u32)],
) -> Result<(), AllocError>
    ensures { OnOk result (out.new.items ≡ out.old.items ++ first_links c first.now links.now) }
{
    if first.is_empty() {
        return Ok(());
    }
    for (s, e) in links {
        push_links(out, c, *e, *s, first)?;
    }
    Ok(())
}

/// What comes before the second link of a chain goes on to D.
fn push_second_links(
    out: &mut Vec<Fact>,
    d: u32,
    second: &[(u32, u32)],
    back: &[(u32, u32)],
) -> Result<(), AllocError>
    ensures { OnOk result (out.new.items ≡ out.old.items ++ second_links d second.now back.now) }
{
    if second.is_empty() {
        return Ok(());
    }
    for (r, b) in back {
        push_links(out, *b, d, *r, second)?;
    }
    Ok(())
}

/// C is below each intersection whose operands all stand in its row.
fn push_and_belows(
    out: &mut Vec<Fact>,
    met: &mut Met,
    part: &NumberedPart,
    rows: &[NumberSet],
    c: u32,
    ands: &[u32],
) -> Result<(), AllocError>
    requires { IsMet part.now.operands.items rows.now met.old }
    ensures out { OnOk result (out.new.items ≡ out.old.items ++ and_belows part.now.operands.items c (row rows.now c) ands.now) }
    ensures met { OnOk result (IsMet part.now.operands.items rows.now met.new) }
{
    for a in ands {
        if is_met(met, part, rows, c, *a)? {
            out.push(Fact::Below(c, *a))?;
        }
    }
    Ok(())
}

/// C is below Nothing for each of these that stands in its row.
fn push_clashes(
    out: &mut Vec<Fact>,
    rows: &[NumberSet],
    c: u32,
    others: &[u32],
) -> Result<(), AllocError>
    ensures { OnOk result (out.new.items ≡ out.old.items ++ clashes c (row rows.now c) others.now) }
{
    for e in others {
        if set_has(rows, c, *e) {
            out.push(Fact::Below(c, NOTHING))?;
        }
    }
    Ok(())
}

/// What has a link to a class below Nothing is below it too.
fn push_back_nothings(out: &mut Vec<Fact>, d: u32, back: &[(u32, u32)]) -> Result<(), AllocError>
    ensures { OnOk result (out.new.items ≡ out.old.items ++ back_nothings d back.now) }
{
    if d != NOTHING {
        return Ok(());
    }
    for (_, b) in back {
        out.push(Fact::Below(*b, NOTHING))?;
    }
    Ok(())
}

/// C has a link to D by each of these roles.
fn push_role_links(out: &mut Vec<Fact>, c: u32, d: u32, roles: &[u32]) -> Result<(), AllocError>
    ensures { OnOk result (out.new.items ≡ out.old.items ++ role_links c d roles.now) }
{
    for s in roles {
        out.push(Fact::Link(c, *s, d))?;
    }
    Ok(())
}

/// C, with a link to D, is below Nothing where D is.
fn push_link_nothing(
    out: &mut Vec<Fact>,
    rows: &[NumberSet],
    c: u32,
    d: u32,
) -> Result<(), AllocError>
    ensures { OnOk result (out.new.items ≡ out.old.items ++ link_nothing c (row rows.now d)) }
{
    if set_has(rows, d, NOTHING) {
        out.push(Fact::Below(c, NOTHING))?;
    }
    Ok(())
}

/// What follows from a fact of the first form.
fn conclude_below(
    part: &NumberedPart,
    indexes: &Indexes,
    table: &FactRows,
    met: &mut Met,
    c: u32,
    d: u32,
    out: &mut Vec<Fact>,
) -> Result<(), AllocError>
    requires { IsMet part.now.operands.items table.now.below.items met.old }
    ensures out { OnOk result (out.new.items ≡ out.old.items ++ below_conclusions part.now indexes.now table.now c d) }
    ensures met { OnOk result (IsMet part.now.operands.items table.now.below.items met.new) }
{
    push_told(out, c, numbers_at(&indexes.told, d))?;
    push_told(out, c, numbers_at(&part.operands, d))?;
    push_shape_links(out, c, shape_at(&part.shapes, d))?;
    push_back_belows(out, pairs_at(&indexes.somes, d), pairs_at(&table.back, c))?;
    push_and_belows(
        out,
        met,
        part,
        &table.below,
        c,
        numbers_at(&indexes.ands, d),
    )?;
    push_clashes(out, &table.below, c, numbers_at(&indexes.disjoint, d))?;
    push_back_nothings(out, d, pairs_at(&table.back, c))?;
    Ok(())
}

/// What follows from a link.
fn conclude_link(
    part: &NumberedPart,
    indexes: &Indexes,
    table: &FactRows,
    c: u32,
    r: u32,
    d: u32,
    out: &mut Vec<Fact>,
) -> Result<(), AllocError>
    ensures { OnOk result (out.new.items ≡ out.old.items ++ link_conclusions part.now indexes.now table.now c r d) }
{
    push_link_belows(out, &indexes.somes, c, r, number_set_at(&table.below, d))?;
    push_first_links(
        out,
        c,
        pairs_at(&indexes.first, r),
        pair_set_at(&table.links, d),
    )?;
    push_second_links(
        out,
        d,
        pairs_at(&indexes.second, r),
        pairs_at(&table.back, c),
    )?;
    push_role_links(out, c, d, numbers_at(&indexes.roles, r))?;
    push_told(out, c, numbers_at(&indexes.domains, r))?;
    push_link_nothing(out, &table.below, c, d)?;
    Ok(())
}

/// Adds what follows from a fact and the table by one rule with that fact among its premises.
pub fn conclude(
    part: &NumberedPart,
    indexes: &Indexes,
    table: &FactRows,
    met: &mut Met,
    fact: Fact,
    out: &mut Vec<Fact>,
) -> Result<(), AllocError>
    requires { IsMet part.now.operands.items table.now.below.items met.old }
    ensures out { OnOk result (out.new.items ≡ out.old.items ++ conclusions part.now indexes.now table.now fact) }
    ensures met { OnOk result (IsMet part.now.operands.items table.now.below.items met.new) }
{
    match fact {
        Fact::Below(c, d) => conclude_below(part, indexes, table, met, c, d, out),
        Fact::Link(c, r, d) => conclude_link(part, indexes, table, c, r, d, out),
    }
}
