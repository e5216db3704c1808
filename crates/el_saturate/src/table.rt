//! `Table`: the facts that are derived in an EL part, over the nodes of a pool.
ghost use Rattle.std.specs.Prelude.{◌≡◌, ◌<◌, ◌^◌, ◌↔◌, IsTrue, length, slice_get};
ghost use Rattle.el_numbers.specs.Table.{size};
ghost use Rattle.el_saturate.specs.Table.{SaysBelow, SaysLink};

use el_numbers::Table as NumberTable;
use expr_pool::Node;
use fact_rows::NumberSet;
use hash_key::HashKey;
use indexmap::IndexSet;
use rel_io::Iri;
use std::marker::Model;

/// A table of facts: seen as the numbers of nodes and of roles, and the facts over numbers. `IsTableOf` says what it tells
/// of the part that it was made of.
#[derive(Drop)]
pub struct Table {
    numbers: Vec<u32>,
    roles: IndexSet<Iri, HashKey>,
    table: NumberTable,
}

impl Model for Table {
    ghost use Rattle.std.specs.Prelude.{◌<◌, ◌^◌, length};
    ghost use Rattle.el_saturate.specs.Table.{Facts};

    ghost Value = { Facts };

    ghost view = { λ t. record { numbers = t.numbers.items; roles = t.roles.keys; table = t.table } };

    ghost invariant = { λ t. length t.roles.keys < 2 ^ 32 };
}

/// The number of a node, if it has one.
fn number_at(numbers: &[u32], node: Node) -> Option<u32>
    ensures { result ≡ slice_get numbers.now node.place }
{
    numbers.get(node.place() as usize).copied()
}

impl Table {
    /// The table of these numbers and facts.
    pub(crate) fn of(numbers: Vec<u32>, roles: IndexSet<Iri, HashKey>, table: NumberTable) -> Table
        requires { length roles.keys < 2 ^ 32 }
        ensures { result ≡ record { numbers = numbers.items; roles = roles.keys; table = table } }
    {
        Table {
            numbers,
            roles,
            table,
        }
    }

    /// Whether a node is below another.
    pub fn below(&self, a: Node, b: Node) -> bool
        ensures { IsTrue result ↔ SaysBelow self.now a b }
    {
        match number_at(&self.numbers, a) {
            None => false,
            Some(lower) => match number_at(&self.numbers, b) {
                None => false,
                Some(upper) => self.table.below(lower, upper),
            },
        }
    }

    /// Whether a node has a link by a role to another.
    pub fn link(&self, a: Node, role: &Iri, b: Node) -> bool
        ensures { IsTrue result ↔ SaysLink self.now a role.now b }
    {
        match number_at(&self.numbers, a) {
            None => false,
            Some(start) => match self.roles.get_index_of(role) {
                None => false,
                Some(number) => match number_at(&self.numbers, b) {
                    None => false,
                    Some(end) => self.table.link(start, number as u32, end),
                },
            },
        }
    }

    /// The number of a node, if it has one.
    pub fn number(&self, node: Node) -> Option<u32>
        ensures { result ≡ slice_get self.now.numbers node.place }
    {
        number_at(&self.numbers, node)
    }

    /// What each number is below.
    pub fn rows(&self) -> &[NumberSet]
        ensures { result.now ≡ self.now.table.below }
    {
        self.table.rows()
    }

    /// The number of facts.
    pub fn facts(&self) -> u64
        ensures { result ≡ size self.now.table }
    {
        self.table.facts()
    }
}
