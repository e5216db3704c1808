//! The index of a pool: what each node is a part of, and which nodes have a name at the top.
ghost use Rattle.std.specs.Prelude.{◌≡◌, IfOk, OnOk, length};
ghost use Rattle.expr_pool.specs.Part.{AreBefore};
ghost use Rattle.locality_core.specs.Verdicts.{IsIndex};
ghost use Rattle.locality_core.specs.inner.Renewal.{IsAbove, IsUsedBy, cell_name};
ghost use Rattle.name_lists.specs.Lists.{HaveLists, IsAdded};
ghost use Rattle.owl_axioms.specs.Names.{name_of};

use expr_pool::{Cell, Node, Pool};
use name_lists::{Lists, NamedLists};
use owl_axioms::{Kind, Name};
use rel_io::{Dup, Iri, NoMemory};
use std::alloc::Global;

/// The index of a pool.
#[derive(Drop)]
pub(crate) struct Index {
    /// Of each node the places of the nodes that it is a part of.
    pub(crate) wholes: Lists,
    /// Of each name the places of the nodes that have it at the top.
    pub(crate) uses: NamedLists,
}

/// Adds a number to the lists of nodes.
fn add_parts(wholes: &mut Lists, nodes: &[Node], at: u64) -> Result<(), NoMemory>
    requires { AreBefore (length wholes.old) nodes.now }
    ensures { OnOk result (IsAbove wholes.old nodes.now at wholes.new) }
{
    'parts: for node in nodes {
        wholes.add(node.place() as usize, at)?;
    }
    Ok(())
}

/// Adds a number to the list of a name.
fn add_name(
    alloc: Global,
    uses: &mut NamedLists,
    kind: Kind,
    iri: &Iri,
    at: u64,
) -> Result<(), NoMemory>
    ensures added { OnOk result (IsAdded uses.old (name_of kind iri.now) at uses.new) }
    ensures have { OnOk result (HaveLists uses.old) }
{
    let iri = iri.copy(alloc)?;
    let name = Name { kind, iri };
    uses.add(&name, at)?;
    Ok(())
}

/// Adds a number to the list of the name in a cell.
#[tactic(auto, unfolding(crate::specs::inner::Renewal::cell_name))]
fn add_top(alloc: Global, uses: &mut NamedLists, cell: &Cell, at: u64) -> Result<(), NoMemory>
    ensures { OnOk result (IsUsedBy (cell_name cell.now) uses.old at uses.new) }
{
    match cell {
        Cell::Thing => Ok(()),
        Cell::Nothing => Ok(()),
        Cell::Class(iri) => add_name(alloc, uses, Kind::Class, iri, at),
        Cell::And(_) => Ok(()),
        Cell::Or(_) => Ok(()),
        Cell::Not(_) => Ok(()),
        Cell::Some(role, _) => add_name(alloc, uses, Kind::Role, role, at),
        Cell::All(role, _) => add_name(alloc, uses, Kind::Role, role, at),
        Cell::Min(_, role, _) => add_name(alloc, uses, Kind::Role, role, at),
        Cell::Max(_, role, _) => add_name(alloc, uses, Kind::Role, role, at),
        Cell::Exact(_, role, _) => add_name(alloc, uses, Kind::Role, role, at),
    }
}

/// The index of a pool.
pub(crate) fn index_of(alloc: Global, pool: &Pool) -> Result<Index, NoMemory>
    ensures { IfOk result (λ x. IsIndex pool.now x.wholes x.uses) }
{
    let count = pool.len();
    let mut wholes = Lists::new(alloc, count as usize)?;
    let mut uses = NamedLists::new(alloc, pool.hash_key())?;
    'nodes: for at in 0..count {
        let cell = pool.node(pool.at(at));
        add_parts(&mut wholes, cell.parts(), at)?;
        add_top(alloc, &mut uses, cell, at)?;
    }
    Ok(Index { wholes, uses })
}
