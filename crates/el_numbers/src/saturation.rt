//! The loop of saturation: a fact is taken, what follows from it and the table is put in, and each new fact waits.
ghost use Rattle.std.specs.Prelude.{◌≡◌, ◌<◌, ◌^◌, length, IfOk, IfErr};
ghost use Rattle.el_numbers.specs.Proper.{IsProper};
ghost use Rattle.el_numbers.specs.Saturated.{IsSaturated, IsFault};
ghost use Rattle.el_numbers.specs.inner.Indexes.{IsIndexed};
ghost use Rattle.el_numbers.specs.inner.Going.{IsUnderWay, starts};
ghost use Rattle.el_numbers.specs.inner.Storing.{IsLinked, IsCounted, state_of};

use crate::conclude::conclude;
use crate::index::{Indexes, indexes_of};
use crate::met::Met;
use crate::part::THING;
use crate::storing::{FactRows, no_facts, put_all};
use crate::{Fact, NumberedPart, SaturationFault, Table};
use hash_key::HashKey;
use std::alloc::{AllocError, Global};

/// The facts that need no premise.
fn start(alloc: Global, count: u32) -> Result<Vec<Fact>, AllocError>
    ensures { IfOk result (λ out. out.items ≡ starts count) }
{
    let mut out = Vec::new(alloc);
    for c in 0..count {
        out.push(Fact::Below(c, c))?;
        out.push(Fact::Below(c, THING))?;
    }
    Ok(out)
}

/// The rows of the derived facts.
fn saturated_rows(
    alloc: Global,
    hash_key: HashKey,
    part: &NumberedPart,
    indexes: &Indexes,
    limit: u64,
) -> Result<FactRows, SaturationFault>
    requires proper { IsProper part.now }
    requires indexed { IsIndexed part.now indexes.now }
    ensures linked { IfOk result (λ rows. IsLinked rows) }
    ensures counted { IfOk result (λ rows. IsCounted rows) }
    ensures ok { IfOk result (λ rows. IsSaturated part.now limit (state_of rows)) }
    ensures err { IfErr result (λ e. IsFault part.now limit e) }
{
    let count = part.shapes.len() as u32;
    let mut rows = no_facts(alloc, hash_key, count)?;
    let mut met = Met::new(alloc, hash_key);
    let mut waiting = Vec::new(alloc);
    let mut out = start(alloc, count)?;
    put_all(&mut rows, &mut waiting, out.as_slice(), limit)?;
    while let Some(fact) = waiting.pop() {
        out.clear();
        conclude(part, indexes, &rows, &mut met, fact, &mut out)?;
        put_all(&mut rows, &mut waiting, out.as_slice(), limit)?;
    }
    Ok(rows)
}

/// The table of exactly the derived facts, or, where they number more than the limit, the fault that says so: never
/// both, as `answers_exclude` says. Where memory runs out, neither.
pub fn saturate(
    alloc: Global,
    hash_key: HashKey,
    part: &NumberedPart,
    limit: u64,
) -> Result<Table, SaturationFault>
    requires proper { IsProper part.now }
    ensures ok { IfOk result (λ table. IsSaturated part.now limit table) }
    ensures err { IfErr result (λ fault. IsFault part.now limit fault) }
{
    let indexes = indexes_of(alloc, part)?;
    let rows = saturated_rows(alloc, hash_key, part, &indexes, limit)?;
    Ok(Table::of(rows))
}
