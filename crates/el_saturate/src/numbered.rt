//! The part over numbers.
ghost use Rattle.std.specs.Prelude.{◌≡◌, ◌<◌, ◌^◌, ◌++◌, [], ◌∷◌, IfOk, OnOk, length, map};
ghost use Rattle.std.specs.List.{flat_map};
ghost use Rattle.expr_pool.specs.Pool.{tree_at};
ghost use Rattle.el_part.specs.Part.{FitsPool};
ghost use Rattle.el_saturate.specs.inner.Numbers as spec;

use crate::numbers::{number_of, numbers_of};
use crate::roles::role_of;
use el_numbers::{NumberedPart, Shape};
use el_part::{ElAxiom, ElPart};
use expr_pool::{Cell, Pool};
use fact_rows::Numbers;
use hash_key::HashKey;
use indexmap::IndexSet;
use rel_io::{Iri, NoMemory};
use std::alloc::Global;

/// The shape of a cell.
#[tactic(auto, unfolding(crate::specs::inner::Numbers::shape_in))]
fn shape_of(roles: &IndexSet<Iri, HashKey>, numbers: &[u32], cell: &Cell) -> Shape
    requires { length roles.now.keys < 2 ^ 32 }
    ensures { result ≡ spec.shape_in numbers.now roles.now.keys cell.now }
{
    match cell {
        Cell::And(_) => Shape::And,
        Cell::Some(role, filler) => {
            Shape::Some(role_of(roles, role), number_of(numbers, *filler))
        }
        Cell::Thing => Shape::Name,
        Cell::Nothing => Shape::Name,
        Cell::Class(_) => Shape::Name,
        Cell::Or(_) => Shape::Name,
        Cell::Not(_) => Shape::Name,
        Cell::All(_, _) => Shape::Name,
        Cell::Min(_, _, _) => Shape::Name,
        Cell::Max(_, _, _) => Shape::Name,
        Cell::Exact(_, _, _) => Shape::Name,
    }
}

/// The numbers of the operands of a cell, if it is an intersection.
#[tactic(auto, unfolding(crate::specs::inner::Numbers::operands_in))]
fn operands_of(alloc: Global, numbers: &[u32], cell: &Cell) -> Result<Numbers, NoMemory>
    ensures { IfOk result (λ made. made ≡ spec.operands_in numbers.now cell.now) }
{
    match cell {
        Cell::And(nodes) => numbers_of(alloc, numbers, nodes.as_slice()),
        Cell::Some(_, _) => Ok(Numbers::new(alloc)),
        Cell::Thing => Ok(Numbers::new(alloc)),
        Cell::Nothing => Ok(Numbers::new(alloc)),
        Cell::Class(_) => Ok(Numbers::new(alloc)),
        Cell::Or(_) => Ok(Numbers::new(alloc)),
        Cell::Not(_) => Ok(Numbers::new(alloc)),
        Cell::All(_, _) => Ok(Numbers::new(alloc)),
        Cell::Min(_, _, _) => Ok(Numbers::new(alloc)),
        Cell::Max(_, _, _) => Ok(Numbers::new(alloc)),
        Cell::Exact(_, _, _) => Ok(Numbers::new(alloc)),
    }
}

/// One expression more.
fn push_expression(
    alloc: Global,
    roles: &IndexSet<Iri, HashKey>,
    numbers: &[u32],
    cell: &Cell,
    shapes: &mut Vec<Shape>,
    operands: &mut Vec<Numbers>,
) -> Result<(), NoMemory>
    requires { length roles.now.keys < 2 ^ 32 }
    ensures shapes { OnOk result (shapes.new.items ≡ shapes.old.items ++ spec.shape_in numbers.now roles.now.keys cell.now ∷ []) }
    ensures operands { OnOk result (operands.new.items ≡ operands.old.items ++ spec.operands_in numbers.now cell.now ∷ []) }
{
    let shape = shape_of(roles, numbers, cell);
    shapes.push(shape)?;
    let row = operands_of(alloc, numbers, cell)?;
    operands.push(row)?;
    Ok(())
}

/// The shapes and the operands of all expressions that occur.
fn expressions(
    alloc: Global,
    part: &ElPart,
    pool: &Pool,
    roles: &IndexSet<Iri, HashKey>,
    numbers: &[u32],
) -> Result<(Vec<Shape>, Vec<Numbers>), NoMemory>
    requires fits { FitsPool pool.now part.now }
    requires small { length roles.now.keys < 2 ^ 32 }
    ensures { IfOk result (λ made. spec.AreShapes pool.now (map (tree_at pool.now) part.now.occurring) numbers.now roles.now.keys made.0.items made.1.items) }
{
    let mut shapes = Vec::new(alloc);
    let mut operands = Vec::new(alloc);
    for at in 0..part.occurring() {
        let node = part.occurs(at);
        let cell = pool.node(node);
        push_expression(alloc, roles, numbers, cell, &mut shapes, &mut operands)?;
    }
    Ok((shapes, operands))
}

/// The inclusion of an axiom, if it is one.
#[tactic(auto, unfolding(crate::specs::inner::Numbers::inclusion_in))]
fn push_inclusion(
    made: &mut Vec<(u32, u32)>,
    numbers: &[u32],
    from: &ElAxiom,
) -> Result<(), NoMemory>
    ensures { OnOk result (made.new.items ≡ made.old.items ++ spec.inclusion_in numbers.now from.now) }
{
    match from {
        ElAxiom::Sub(c, d) => {
            let pair = (number_of(numbers, *c), number_of(numbers, *d));
            made.push(pair)?;
            Ok(())
        }
        ElAxiom::Disjoint(_, _) => Ok(()),
        ElAxiom::Domain(_, _) => Ok(()),
        ElAxiom::SubRole(_, _) => Ok(()),
        ElAxiom::Chain(_, _, _) => Ok(()),
    }
}

/// The inclusions of a part.
fn inclusions(alloc: Global, part: &ElPart, numbers: &[u32]) -> Result<Vec<(u32, u32)>, NoMemory>
    ensures { IfOk result (λ made. made.items ≡ flat_map (spec.inclusion_in numbers.now) part.now.axioms) }
{
    let mut made = Vec::new(alloc);
    for at in 0..part.axioms() {
        push_inclusion(&mut made, numbers, part.axiom(at))?;
    }
    Ok(made)
}

/// The disjointness of an axiom, if it is one.
#[tactic(auto, unfolding(crate::specs::inner::Numbers::disjoint_in))]
fn push_disjoint(
    made: &mut Vec<(u32, u32)>,
    numbers: &[u32],
    from: &ElAxiom,
) -> Result<(), NoMemory>
    ensures { OnOk result (made.new.items ≡ made.old.items ++ spec.disjoint_in numbers.now from.now) }
{
    match from {
        ElAxiom::Disjoint(c, d) => {
            let pair = (number_of(numbers, *c), number_of(numbers, *d));
            made.push(pair)?;
            Ok(())
        }
        ElAxiom::Sub(_, _) => Ok(()),
        ElAxiom::Domain(_, _) => Ok(()),
        ElAxiom::SubRole(_, _) => Ok(()),
        ElAxiom::Chain(_, _, _) => Ok(()),
    }
}

/// The disjointnesses of a part.
fn disjoints(alloc: Global, part: &ElPart, numbers: &[u32]) -> Result<Vec<(u32, u32)>, NoMemory>
    ensures { IfOk result (λ made. made.items ≡ flat_map (spec.disjoint_in numbers.now) part.now.axioms) }
{
    let mut made = Vec::new(alloc);
    for at in 0..part.axioms() {
        push_disjoint(&mut made, numbers, part.axiom(at))?;
    }
    Ok(made)
}

/// The inclusion of roles of an axiom, if it is one.
#[tactic(auto, unfolding(crate::specs::inner::Numbers::sub_role_in))]
fn push_sub_role(
    made: &mut Vec<(u32, u32)>,
    roles: &IndexSet<Iri, HashKey>,
    from: &ElAxiom,
) -> Result<(), NoMemory>
    requires { length roles.now.keys < 2 ^ 32 }
    ensures { OnOk result (made.new.items ≡ made.old.items ++ spec.sub_role_in roles.now.keys from.now) }
{
    match from {
        ElAxiom::SubRole(role, other) => {
            let pair = (role_of(roles, role), role_of(roles, other));
            made.push(pair)?;
            Ok(())
        }
        ElAxiom::Sub(_, _) => Ok(()),
        ElAxiom::Disjoint(_, _) => Ok(()),
        ElAxiom::Domain(_, _) => Ok(()),
        ElAxiom::Chain(_, _, _) => Ok(()),
    }
}

/// The inclusions of roles of a part.
fn sub_roles(
    alloc: Global,
    part: &ElPart,
    roles: &IndexSet<Iri, HashKey>,
) -> Result<Vec<(u32, u32)>, NoMemory>
    requires { length roles.now.keys < 2 ^ 32 }
    ensures { IfOk result (λ made. made.items ≡ flat_map (spec.sub_role_in roles.now.keys) part.now.axioms) }
{
    let mut made = Vec::new(alloc);
    for at in 0..part.axioms() {
        push_sub_role(&mut made, roles, part.axiom(at))?;
    }
    Ok(made)
}

/// The chain of an axiom, if it is one.
#[tactic(auto, unfolding(crate::specs::inner::Numbers::chain_in))]
fn push_chain(
    made: &mut Vec<(u32, u32, u32)>,
    roles: &IndexSet<Iri, HashKey>,
    from: &ElAxiom,
) -> Result<(), NoMemory>
    requires { length roles.now.keys < 2 ^ 32 }
    ensures { OnOk result (made.new.items ≡ made.old.items ++ spec.chain_in roles.now.keys from.now) }
{
    match from {
        ElAxiom::Chain(role, other, implied) => {
            let triple = (
                role_of(roles, role),
                role_of(roles, other),
                role_of(roles, implied),
            );
            made.push(triple)?;
            Ok(())
        }
        ElAxiom::Sub(_, _) => Ok(()),
        ElAxiom::Disjoint(_, _) => Ok(()),
        ElAxiom::Domain(_, _) => Ok(()),
        ElAxiom::SubRole(_, _) => Ok(()),
    }
}

/// The chains of a part.
fn chains(
    alloc: Global,
    part: &ElPart,
    roles: &IndexSet<Iri, HashKey>,
) -> Result<Vec<(u32, u32, u32)>, NoMemory>
    requires { length roles.now.keys < 2 ^ 32 }
    ensures { IfOk result (λ made. made.items ≡ flat_map (spec.chain_in roles.now.keys) part.now.axioms) }
{
    let mut made = Vec::new(alloc);
    for at in 0..part.axioms() {
        push_chain(&mut made, roles, part.axiom(at))?;
    }
    Ok(made)
}

/// The domain of an axiom, if it is one.
#[tactic(auto, unfolding(crate::specs::inner::Numbers::domain_in))]
fn push_domain(
    made: &mut Vec<(u32, u32)>,
    numbers: &[u32],
    roles: &IndexSet<Iri, HashKey>,
    from: &ElAxiom,
) -> Result<(), NoMemory>
    requires { length roles.now.keys < 2 ^ 32 }
    ensures { OnOk result (made.new.items ≡ made.old.items ++ spec.domain_in numbers.now roles.now.keys from.now) }
{
    match from {
        ElAxiom::Domain(role, class) => {
            let pair = (role_of(roles, role), number_of(numbers, *class));
            made.push(pair)?;
            Ok(())
        }
        ElAxiom::Sub(_, _) => Ok(()),
        ElAxiom::Disjoint(_, _) => Ok(()),
        ElAxiom::SubRole(_, _) => Ok(()),
        ElAxiom::Chain(_, _, _) => Ok(()),
    }
}

/// The domains of a part.
fn domains(
    alloc: Global,
    part: &ElPart,
    numbers: &[u32],
    roles: &IndexSet<Iri, HashKey>,
) -> Result<Vec<(u32, u32)>, NoMemory>
    requires { length roles.now.keys < 2 ^ 32 }
    ensures { IfOk result (λ made. made.items ≡ flat_map (spec.domain_in numbers.now roles.now.keys) part.now.axioms) }
{
    let mut made = Vec::new(alloc);
    for at in 0..part.axioms() {
        push_domain(&mut made, numbers, roles, part.axiom(at))?;
    }
    Ok(made)
}

/// The part over these numbers.
pub(crate) fn part_over(
    alloc: Global,
    part: &ElPart,
    pool: &Pool,
    roles: &IndexSet<Iri, HashKey>,
    numbers: &[u32],
) -> Result<NumberedPart, NoMemory>
    requires fits { FitsPool pool.now part.now }
    requires small { length roles.now.keys < 2 ^ 32 }
    ensures { IfOk result (λ made. spec.IsPartOver pool.now part.now numbers.now roles.now.keys made) }
{
    let (shapes, operands) = expressions(alloc, part, pool, roles, numbers)?;
    let inclusions = inclusions(alloc, part, numbers)?;
    let disjoints = disjoints(alloc, part, numbers)?;
    let role_inclusions = sub_roles(alloc, part, roles)?;
    let chains = chains(alloc, part, roles)?;
    let domains = domains(alloc, part, numbers, roles)?;
    Ok(NumberedPart {
        shapes,
        operands,
        role_count: roles.len() as u32,
        inclusions,
        disjoints,
        role_inclusions,
        chains,
        domains,
    })
}
