//! The roles of a part, each with its number.
ghost use Rattle.std.specs.Prelude.{◌≡◌, ◌<◌, ◌^◌, IfOk, OnOk, length, map};
ghost use Rattle.fact_rows.specs.Member.{NoRepeats};
ghost use Rattle.indexmap.specs.IndexSet.{insert_all, insert_key};
ghost use Rattle.expr_pool.specs.Pool.{tree_at};
ghost use Rattle.el_part.specs.Part.{FitsPool};
ghost use Rattle.el_saturate.specs.inner.Numbers as spec;
ghost use Rattle.std.specs.List.{flat_map};

use el_part::{ElAxiom, ElPart};
use expr_pool::{Cell, Pool};
use hash_key::HashKey;
use indexmap::IndexSet;
use rel_io::{Dup, Iri, NoMemory};
use std::alloc::Global;

/// One role more.
fn add_role(alloc: Global, roles: &mut IndexSet<Iri, HashKey>, role: &Iri) -> Result<(), NoMemory>
    ensures { OnOk result (roles.new.keys ≡ insert_key spec.same_iri roles.old.keys role.now) }
{
    let role = role.copy(alloc)?;
    roles.insert(role)?;
    Ok(())
}

/// The roles in an axiom.
#[tactic(auto, unfolding(crate::specs::inner::Numbers::roles_in))]
fn add_roles_in(
    alloc: Global,
    roles: &mut IndexSet<Iri, HashKey>,
    from: &ElAxiom,
) -> Result<(), NoMemory>
    ensures { OnOk result (roles.new.keys ≡ insert_all spec.same_iri roles.old.keys (spec.roles_in from.now)) }
{
    match from {
        ElAxiom::Sub(_, _) => Ok(()),
        ElAxiom::Disjoint(_, _) => Ok(()),
        ElAxiom::Domain(role, _) => add_role(alloc, roles, role),
        ElAxiom::SubRole(role, other) => {
            add_role(alloc, roles, role)?;
            add_role(alloc, roles, other)
        }
        ElAxiom::Chain(role, other, implied) => {
            add_role(alloc, roles, role)?;
            add_role(alloc, roles, other)?;
            add_role(alloc, roles, implied)
        }
    }
}

/// The role in a cell, if it is a restriction.
#[tactic(auto, unfolding(crate::specs::inner::Numbers::role_in))]
fn add_role_of(
    alloc: Global,
    roles: &mut IndexSet<Iri, HashKey>,
    cell: &Cell,
) -> Result<(), NoMemory>
    ensures { OnOk result (roles.new.keys ≡ insert_all spec.same_iri roles.old.keys (spec.role_in cell.now)) }
{
    match cell {
        Cell::Some(role, _) => add_role(alloc, roles, role),
        Cell::Thing => Ok(()),
        Cell::Nothing => Ok(()),
        Cell::Class(_) => Ok(()),
        Cell::And(_) => Ok(()),
        Cell::Or(_) => Ok(()),
        Cell::Not(_) => Ok(()),
        Cell::All(_, _) => Ok(()),
        Cell::Min(_, _, _) => Ok(()),
        Cell::Max(_, _, _) => Ok(()),
        Cell::Exact(_, _, _) => Ok(()),
    }
}

/// The roles in the axioms of a part.
fn axiom_roles(
    alloc: Global,
    hash_key: HashKey,
    part: &ElPart,
) -> Result<IndexSet<Iri, HashKey>, NoMemory>
    ensures once { IfOk result (λ roles. NoRepeats roles.keys) }
    ensures roles { IfOk result (λ roles. spec.HasRoles roles.keys (flat_map spec.roles_in part.now.axioms)) }
{
    let mut roles = IndexSet::with_hasher(alloc, hash_key);
    for at in 0..part.axioms() {
        add_roles_in(alloc, &mut roles, part.axiom(at))?;
    }
    Ok(roles)
}

/// The roles of a part: those in its axioms, and those of the restrictions that occur.
pub(crate) fn part_roles(
    alloc: Global,
    part: &ElPart,
    pool: &Pool,
) -> Result<IndexSet<Iri, HashKey>, NoMemory>
    requires { FitsPool pool.now part.now }
    ensures once { IfOk result (λ roles. NoRepeats roles.keys) }
    ensures axioms { IfOk result (λ roles. spec.HasRoles roles.keys (flat_map spec.roles_in part.now.axioms)) }
    ensures restrictions { IfOk result (λ roles. spec.HasRestrictions (map (tree_at pool.now) part.now.occurring) roles.keys) }
{
    let mut roles = axiom_roles(alloc, pool.hash_key(), part)?;
    for at in 0..part.occurring() {
        add_role_of(alloc, &mut roles, pool.node(part.occurs(at)))?;
    }
    Ok(roles)
}

/// The number of a role.
pub(crate) fn role_of(roles: &IndexSet<Iri, HashKey>, role: &Iri) -> u32
    requires { length roles.now.keys < 2 ^ 32 }
    ensures { result ≡ spec.role_of roles.now.keys role.now }
{
    match roles.get_index_of(role) {
        Some(number) => number as u32,
        None => 0,
    }
}
