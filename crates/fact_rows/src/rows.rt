//! Rows: for each number from 0 a set or a list. Past the last row each row is empty.
ghost use Rattle.std.specs.Prelude.{◌≡◌, ◌<◌, ◌&&◌, [], IfOk, OnErr, OnOk, length, nat_eq, replicate};
ghost use Rattle.std.specs.List.{list_any};
ghost use Rattle.fact_rows.specs.Rows.{InsertsAt, push_at, row};

use crate::{NumberSet, Numbers, PairSet, Pairs};
use std::alloc::{AllocError, Global};

/// The set of a number.
pub fn number_set_at(rows: &[NumberSet], at: u32) -> &[u32]
    ensures { result.now ≡ row rows.now at }
{
    match rows.get(at as usize) {
        Some(found) => found.as_slice(),
        None => &[],
    }
}

/// The set of pairs of a number.
pub fn pair_set_at(rows: &[PairSet], at: u32) -> &[(u32, u32)]
    ensures { result.now ≡ row rows.now at }
{
    match rows.get(at as usize) {
        Some(found) => found.as_slice(),
        None => &[],
    }
}

/// The list of a number.
pub fn numbers_at(rows: &[Numbers], at: u32) -> &[u32]
    ensures { result.now ≡ row rows.now at }
{
    match rows.get(at as usize) {
        Some(found) => found.as_slice(),
        None => &[],
    }
}

/// The list of pairs of a number.
pub fn pairs_at(rows: &[Pairs], at: u32) -> &[(u32, u32)]
    ensures { result.now ≡ row rows.now at }
{
    match rows.get(at as usize) {
        Some(found) => found.as_slice(),
        None => &[],
    }
}

/// Whether the set of a number has another number.
pub fn set_has(rows: &[NumberSet], at: u32, value: u32) -> bool
    ensures { result ≡ list_any (nat_eq value) (row rows.now at) }
{
    match rows.get(at as usize) {
        Some(found) => found.has(value),
        None => false,
    }
}

/// Whether the set of pairs of a number has a pair.
pub fn pair_set_has(rows: &[PairSet], at: u32, value: (u32, u32)) -> bool
    ensures { result ≡ list_any (λ p. nat_eq value.0 p.0 && nat_eq value.1 p.1) (row rows.now at) }
{
    match rows.get(at as usize) {
        Some(found) => found.has(value),
        None => false,
    }
}

/// Adds a number to one of the sets, and says whether it is new there. Where no memory is left, nothing has
/// happened.
pub fn insert_at(rows: &mut Vec<NumberSet>, at: u32, value: u32) -> Result<bool, AllocError>
    requires { at < length rows.old.items }
    ensures inserts { IfOk result (λ is_new. InsertsAt rows.old.items at value is_new rows.new.items) }
    ensures unchanged { OnErr result (rows.new.items ≡ rows.old.items) }
{
    rows[at as usize].insert(value)
}

/// Adds a pair to one of the sets, and says whether it is new there. Where no memory is left, nothing has
/// happened.
pub fn insert_pair_at(
    rows: &mut Vec<PairSet>,
    at: u32,
    value: (u32, u32),
) -> Result<bool, AllocError>
    requires { at < length rows.old.items }
    ensures inserts { IfOk result (λ is_new. InsertsAt rows.old.items at value is_new rows.new.items) }
    ensures unchanged { OnErr result (rows.new.items ≡ rows.old.items) }
{
    rows[at as usize].insert(value)
}

/// Adds a number at the end of one of the lists. Where no memory is left, nothing has happened.
pub fn push_number_at(rows: &mut Vec<Numbers>, at: u32, value: u32) -> Result<(), AllocError>
    requires { at < length rows.old.items }
    ensures pushes { OnOk result (rows.new.items ≡ push_at rows.old.items at value) }
    ensures unchanged { OnErr result (rows.new.items ≡ rows.old.items) }
{
    rows[at as usize].push(value)
}

/// Adds a pair at the end of one of the lists. Where no memory is left, nothing has happened.
pub fn push_pair_at(rows: &mut Vec<Pairs>, at: u32, value: (u32, u32)) -> Result<(), AllocError>
    requires { at < length rows.old.items }
    ensures pushes { OnOk result (rows.new.items ≡ push_at rows.old.items at value) }
    ensures unchanged { OnErr result (rows.new.items ≡ rows.old.items) }
{
    rows[at as usize].push(value)
}

/// So many empty lists of numbers.
pub fn empty_numbers(alloc: Global, count: u32) -> Result<Vec<Numbers>, AllocError>
    ensures { IfOk result (λ rows. rows.items ≡ replicate count []) }
{
    let mut rows = Vec::new(alloc);
    for _made in 0..count {
        rows.push(Numbers::new(alloc))?;
    }
    Ok(rows)
}

/// So many empty lists of pairs.
pub fn empty_pairs(alloc: Global, count: u32) -> Result<Vec<Pairs>, AllocError>
    ensures { IfOk result (λ rows. rows.items ≡ replicate count []) }
{
    let mut rows = Vec::new(alloc);
    for _made in 0..count {
        rows.push(Pairs::new(alloc))?;
    }
    Ok(rows)
}
