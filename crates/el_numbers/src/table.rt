//! `Table`: the facts of a saturated part.
ghost use Rattle.std.specs.Prelude.{◌≡◌, ◌↔◌, IsTrue};
ghost use Rattle.fact_rows.specs.Rows.{row};
ghost use Rattle.el_numbers.specs.Table.{Has, below_fact, link_fact, size};
ghost use Rattle.el_numbers.specs.inner.Storing.{IsLinked, IsCounted, state_of};

use crate::storing::FactRows;
use fact_rows::{NumberSet, number_set_at, pair_set_has, set_has};
use std::marker::Model;

/// A table of facts: seen as the rows of what each expression is below and of its links.
#[derive(Drop)]
pub struct Table {
    rows: FactRows,
}

impl Model for Table {
    ghost use Rattle.el_numbers.specs.Table.{TableState};
    ghost use Rattle.el_numbers.specs.inner.Storing.{IsLinked, IsCounted, state_of};

    ghost Value = { TableState };

    ghost view = { λ t. state_of t.rows };

    ghost invariant = { λ t. IsLinked t.rows × IsCounted t.rows };
}

impl Table {
    /// The table of these rows.
    pub(crate) fn of(rows: FactRows) -> Table
        requires linked { IsLinked rows }
        requires counted { IsCounted rows }
        ensures { result ≡ state_of rows }
    {
        Table { rows }
    }

    /// Whether an expression is below another.
    pub fn below(&self, lower: u32, upper: u32) -> bool
        ensures { IsTrue result ↔ Has self.now (below_fact lower upper) }
    {
        set_has(&self.rows.below, lower, upper)
    }

    /// Whether an expression has a link by a role to another.
    pub fn link(&self, start: u32, role: u32, end: u32) -> bool
        ensures { IsTrue result ↔ Has self.now (link_fact start role end) }
    {
        pair_set_has(&self.rows.links, start, (role, end))
    }

    /// The number of facts.
    pub fn facts(&self) -> u64
        ensures { result ≡ size self.now }
    {
        self.rows.count
    }

    /// What an expression is below, itself and Thing included.
    pub fn subsumers(&self, lower: u32) -> &[u32]
        ensures { result.now ≡ row self.now.below lower }
    {
        number_set_at(&self.rows.below, lower)
    }

    /// What each expression is below.
    pub fn rows(&self) -> &[NumberSet]
        ensures { result.now ≡ self.now.below }
    {
        self.rows.below.as_slice()
    }
}
