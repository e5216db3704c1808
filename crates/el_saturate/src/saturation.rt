//! Saturation of an EL part.
ghost use Rattle.std.specs.Prelude.{◌≡◌, IfOk, IfErr};
ghost use Rattle.el_numbers.specs.Table.{size};
ghost use Rattle.el_part.specs.Part.{FitsPool, view_of};
ghost use Rattle.el_saturate.specs.Table as spec;

use crate::numbered::part_over;
use crate::numbers::number_nodes;
use crate::roles::part_roles;
use crate::{SatFault, Table};
use el_numbers::SaturationFault;
use el_part::ElPart;
use expr_pool::Pool;
use std::alloc::Global;

/// How many expressions or roles can have numbers.
const MOST: usize = 4294967295;

/// The same fault, of the part over expressions.
fn told(fault: SaturationFault) -> SatFault
    ensures { result ≡ spec.told fault }
{
    match fault {
        SaturationFault::TooManyFacts(limit) => SatFault::TooManyFacts { limit },
        SaturationFault::NoMemory => SatFault::NoMemory,
    }
}

/// The table of exactly the facts that are derived in a part, or, where they number more than the limit, the fault that
/// says so: never both, as `answers_exclude` says. Where memory runs out, neither; so too for more than 2^32 - 1
/// expressions or roles. The part is one that `el_part` gave for this pool, which may have more nodes since.
pub fn saturate(alloc: Global, part: &ElPart, pool: &Pool, limit: u64) -> Result<Table, SatFault>
    requires { FitsPool pool.now part.now }
    ensures ok { IfOk result (λ table. spec.IsTableOf pool.now (view_of pool.now part.now) limit (size table.table) table) }
    ensures rows { IfOk result (λ table. spec.HasRows part.now.occurring table) }
    ensures err { IfErr result (λ fault. spec.IsFaultOf (view_of pool.now part.now) limit fault) }
{
    if part.occurring() > MOST {
        return Err(SatFault::NoMemory);
    }
    let roles = part_roles(alloc, part, pool)?;
    if roles.len() > MOST {
        return Err(SatFault::NoMemory);
    }
    let numbers = number_nodes(alloc, part, pool.len())?;
    let over = part_over(alloc, part, pool, &roles, numbers.as_slice())?;
    match el_numbers::saturate(alloc, pool.hash_key(), &over, limit) {
        Ok(table) => Ok(Table::of(numbers, roles, table)),
        Err(fault) => Err(told(fault)),
    }
}
