//! `HashKey`: what the tables of a run hash with. A table of a fixed hash can be made slow by whoever chooses its keys:
//! ids whose hashes fall together are looked for among each other. So a run draws a number that nobody who wrote its
//! files could know, and all tables over ids, axioms and numbers begin their hashes with it. What a table holds, and in
//! which order, does not go by it.
#![tactic(auto)]

use std::hash::{BuildHasher, FoldHasher, Hasher};

/// The state with which each hash of a run begins.
#[derive(Clone, Copy)]
pub struct HashKey {
    first: FoldHasher,
}

impl HashKey {
    /// The key that is made from a number.
    pub fn new(number: u64) -> HashKey {
        let mut first = FoldHasher::default();
        first.write(&number.to_le_bytes());
        HashKey { first }
    }
}

impl BuildHasher for HashKey {
    type Hasher = FoldHasher;

    ghost build_hasher = { λ key. key.first };

    fn build_hasher(&self) -> FoldHasher {
        self.first
    }
}
