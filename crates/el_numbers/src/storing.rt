//! The table while it is filled: facts by their first expression, links by their end too, and a count.
ghost use Rattle.std.specs.Prelude.{◌≡◌, ◌<◌, ◌≤◌, [], ◌∷◌, length, IfOk, OnOk, IfErr};
ghost use Rattle.fact_rows.specs.Member.{In};
ghost use Rattle.el_numbers.specs.Table.{below_fact, link_fact};
ghost use Rattle.el_numbers.specs.inner.Storing.{IsWithin, IsLinked, Puts, Adds, IsCounted, AtFault, GoesOver, IsEmpty};

use crate::{Fact, SaturationFault};
use fact_rows::{NumberSet, PairSet, Pairs, insert_at, insert_pair_at, push_pair_at};
use hash_key::HashKey;
use std::alloc::{AllocError, Global};

/// Facts by their first expression, and how many they are.
#[derive(Drop)]
pub struct FactRows {
    /// What each expression is below.
    pub below: Vec<NumberSet>,
    /// The links of each expression: a role and an end.
    pub links: Vec<PairSet>,
    /// The links to each expression: a role and a start.
    pub back: Vec<Pairs>,
    /// The number of facts.
    pub count: u64,
}

/// So many expressions without facts.
pub fn no_facts(alloc: Global, hash_key: HashKey, count: u32) -> Result<FactRows, AllocError>
    ensures { IfOk result (λ rows. IsEmpty count rows) }
{
    let mut below = Vec::new(alloc);
    let mut links = Vec::new(alloc);
    let mut back = Vec::new(alloc);
    for _made in 0..count {
        below.push(NumberSet::new(alloc, hash_key))?;
        links.push(PairSet::new(alloc, hash_key))?;
        back.push(Pairs::new(alloc))?;
    }
    Ok(FactRows {
        below,
        links,
        back,
        count: 0,
    })
}

/// Puts in that one expression is below another, and says whether that is new.
fn put_below(rows: &mut FactRows, lower: u32, upper: u32) -> Result<bool, AllocError>
    requires linked { IsLinked rows.old }
    requires within { lower < length rows.old.below.items }
    ensures { IfOk result (λ is_new. Puts rows.old (below_fact lower upper) is_new rows.new) }
{
    let is_new = insert_at(&mut rows.below, lower, upper)?;
    Ok(is_new)
}

/// Puts in a link, and says whether it is new.
fn put_link(rows: &mut FactRows, start: u32, role: u32, end: u32) -> Result<bool, AllocError>
    requires linked { IsLinked rows.old }
    requires start { start < length rows.old.below.items }
    requires end { end < length rows.old.below.items }
    ensures { IfOk result (λ is_new. Puts rows.old (link_fact start role end) is_new rows.new) }
{
    let is_new = insert_pair_at(&mut rows.links, start, (role, end))?;
    if !is_new {
        return Ok(false);
    }
    push_pair_at(&mut rows.back, end, (role, start))?;
    Ok(true)
}

/// Puts in a fact, and says whether it is new.
fn put_fact(rows: &mut FactRows, fact: Fact) -> Result<bool, AllocError>
    requires linked { IsLinked rows.old }
    requires within { IsWithin (length rows.old.below.items) fact }
    ensures { IfOk result (λ is_new. Puts rows.old fact is_new rows.new) }
{
    match fact {
        Fact::Below(lower, upper) => put_below(rows, lower, upper),
        Fact::Link(start, role, end) => put_link(rows, start, role, end),
    }
}

/// Puts in a fact, which is counted and waits where it is new.
fn put(
    rows: &mut FactRows,
    waiting: &mut Vec<Fact>,
    fact: Fact,
    limit: u64,
) -> Result<(), SaturationFault>
    requires linked { IsLinked rows.old }
    requires counted { IsCounted rows.old }
    requires within { IsWithin (length rows.old.below.items) fact }
    requires few { rows.old.count ≤ limit }
    ensures ok { OnOk result (Adds rows.old waiting.old.items (fact ∷ []) rows.new waiting.new.items) }
    ensures few { OnOk result (rows.new.count ≤ limit) }
    ensures err { IfErr result (λ e. AtFault e limit (GoesOver rows.old (fact ∷ []) rows.new limit)) }
{
    let is_new = put_fact(rows, fact)?;
    if !is_new {
        return Ok(());
    }
    if rows.count == limit {
        return Err(SaturationFault::TooManyFacts(limit));
    }
    rows.count += 1;
    waiting.push(fact)?;
    Ok(())
}

/// Puts in facts, which are counted and wait where they are new.
pub fn put_all(
    rows: &mut FactRows,
    waiting: &mut Vec<Fact>,
    facts: &[Fact],
    limit: u64,
) -> Result<(), SaturationFault>
    requires linked { IsLinked rows.old }
    requires counted { IsCounted rows.old }
    requires within { (g : Fact) → In g facts.now → IsWithin (length rows.old.below.items) g }
    requires few { rows.old.count ≤ limit }
    ensures ok { OnOk result (Adds rows.old waiting.old.items facts.now rows.new waiting.new.items) }
    ensures few { OnOk result (rows.new.count ≤ limit) }
    ensures err { IfErr result (λ e. AtFault e limit (GoesOver rows.old facts.now rows.new limit)) }
{
    for fact in facts {
        put(rows, waiting, *fact, limit)?;
    }
    Ok(())
}
