//! `PairSet`: a set of pairs of numbers in first-seen order.
ghost use Rattle.std.specs.Prelude.{◌≡◌, ◌&&◌, [], IfOk, OnErr, nat_eq};
ghost use Rattle.std.specs.List.{list_any};
ghost use Rattle.fact_rows.specs.Rows.{Inserts};

use hash_key::HashKey;
use indexmap::IndexSet;
use std::alloc::{AllocError, Global};
use std::marker::Model;

/// A set of pairs, seen as the list of them in the order in which they came.
#[derive(Drop)]
pub struct PairSet {
    set: IndexSet<(u32, u32), HashKey>,
}

impl Model for PairSet {
    ghost use Rattle.std.specs.Prelude.{List, ℕ};

    ghost Value = { List (ℕ × ℕ) };

    ghost view = { λ s. s.set.keys };
}

impl PairSet {
    /// A set without pairs.
    pub fn new(alloc: Global, hash_key: HashKey) -> PairSet
        ensures { result ≡ [] }
    {
        PairSet {
            set: IndexSet::with_hasher(alloc, hash_key),
        }
    }

    /// Adds a pair, and says whether it is new. Where no memory is left, nothing has happened.
    pub fn insert(&mut self, value: (u32, u32)) -> Result<bool, AllocError>
        ensures inserts { IfOk result (λ is_new. Inserts self.old value is_new self.new) }
        ensures unchanged { OnErr result (self.new ≡ self.old) }
    {
        let (_, is_new) = self.set.insert_full(value)?;
        Ok(is_new)
    }

    /// Whether the pair is there.
    pub fn has(&self, value: (u32, u32)) -> bool
        ensures { result ≡ list_any (λ p. nat_eq value.0 p.0 && nat_eq value.1 p.1) self.now }
    {
        self.set.contains(&value)
    }

    /// The pairs in their order.
    pub fn as_slice(&self) -> &[(u32, u32)]
        ensures { result.now ≡ self.now }
    {
        self.set.as_slice()
    }
}
