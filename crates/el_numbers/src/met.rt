//! `Met`: how far the operands of intersections were found in the rows. Rows only grow, so what was found stays, and a
//! later search goes on from there.
ghost use Rattle.std.specs.Prelude.{◌≡◌, ℕ, false, OnOk, IfOk, if◌then◌else◌, length, nat_eq, take};
ghost use Rattle.std.specs.List.{list_all, list_any};
ghost use Rattle.fact_rows.specs.Member.{In};
ghost use Rattle.fact_rows.specs.Rows.{row};
ghost use Rattle.el_numbers.specs.inner.Met.{IsMet, known, same_pair};

use crate::NumberedPart;
use fact_rows::{NumberSet, numbers_at, set_has};
use hash_key::HashKey;
use indexmap::IndexMap;
use std::alloc::{AllocError, Global};

/// An intersection of no more operands is looked through anew for each fact: at most so many look-ups, and no memory for
/// notes. Nearly all intersections have two or three operands.
const FEW: usize = 16;

/// For an expression and an intersection: how many operands, from the first on, were found in the row of the expression.
#[derive(Drop)]
pub struct Met {
    counts: IndexMap<(u32, u32), usize, HashKey>,
}

impl Met {
    /// Nothing was found yet.
    pub fn new(alloc: Global, hash_key: HashKey) -> Met
        ensures { (c a : ℕ) → known result c a ≡ 0 }
    {
        Met {
            counts: IndexMap::with_hasher(alloc, hash_key),
        }
    }

    /// How many operands of an intersection were found.
    fn known(&self, c: u32, a: u32) -> usize
        ensures { result ≡ known self.now c a }
    {
        match self.counts.get(&(c, a)) {
            Some(count) => *count,
            None => 0,
        }
    }

    /// Notes that so many operands of an intersection were found.
    fn note(&mut self, c: u32, a: u32, count: usize) -> Result<(), AllocError>
        ensures { OnOk result ((d b : ℕ) → known self.new d b ≡ (if same_pair (c, a) (d, b) then count else known self.old d b)) }
    {
        self.counts.insert((c, a), count)?;
        Ok(())
    }
}

/// The place of the first number that a row lacks, where those before `from` stand in it; past the end, where it lacks
/// none.
fn first_missing(rows: &[NumberSet], at: u32, numbers: &[u32], from: usize) -> usize
    requires { (x : ℕ) → In x (take from numbers.now) → In x (row rows.now at) }
    ensures found { (x : ℕ) → In x (take result numbers.now) → In x (row rows.now at) }
    ensures all { nat_eq result (length numbers.now) ≡ list_all (λ x. list_any (nat_eq x) (row rows.now at)) numbers.now }
{
    for place in from..numbers.len() {
        if !set_has(rows, at, numbers[place]) {
            return place;
        }
    }
    numbers.len()
}

/// Whether all operands of a wide intersection stand in a row. What is found is noted.
fn is_wide_met(
    met: &mut Met,
    rows: &[NumberSet],
    c: u32,
    a: u32,
    operands: &[u32],
) -> Result<bool, AllocError>
    requires { (x : ℕ) → In x (take (known met.old c a) operands.now) → In x (row rows.now c) }
    ensures is { IfOk result (λ is. is ≡ list_all (λ x. list_any (nat_eq x) (row rows.now c)) operands.now) }
    ensures found { OnOk result ((x : ℕ) → In x (take (known met.new c a) operands.now) → In x (row rows.now c)) }
    ensures others { OnOk result ((d b : ℕ) → same_pair (c, a) (d, b) ≡ false → known met.new d b ≡ known met.old d b) }
{
    let known = met.known(c, a);
    let found = first_missing(rows, c, operands, known);
    if found > known {
        met.note(c, a, found)?;
    }
    Ok(found == operands.len())
}

/// Whether all operands of an intersection stand in a row. Where they are many, what is found is noted.
pub fn is_met(
    met: &mut Met,
    part: &NumberedPart,
    rows: &[NumberSet],
    c: u32,
    a: u32,
) -> Result<bool, AllocError>
    requires { IsMet part.now.operands.items rows.now met.old }
    ensures is { IfOk result (λ is. is ≡ list_all (λ x. list_any (nat_eq x) (row rows.now c)) (row part.now.operands.items a)) }
    ensures met { OnOk result (IsMet part.now.operands.items rows.now met.new) }
{
    let operands = numbers_at(&part.operands, a);
    if operands.len() <= FEW {
        return Ok(first_missing(rows, c, operands, 0) == operands.len());
    }
    is_wide_met(met, rows, c, a, operands)
}
