//! Rows of numbers: for each number from 0 a list or a set of numbers, or of pairs of numbers, in the order in which
//! they came. The crates above keep facts about numbered things in them, read the row of a number, and mark numbers
//! while they walk. A contract sees a set and a list alike, as the list of what it has; `In` says that an item stands in
//! a list, and `NoRepeats` that none stands there twice. What is true of these lists is in `proofs/`, for the crates
//! above to cite.
#![tactic(auto)]

mod marks;
mod number_set;
mod numbers;
mod pair_set;
mod pairs;
mod rows;

pub use marks::{fresh_flags, fresh_marks, is_flagged, is_marked, mark, mark_if};
pub use number_set::NumberSet;
pub use numbers::Numbers;
pub use pair_set::PairSet;
pub use pairs::Pairs;
pub use rows::{
    empty_numbers, empty_pairs, insert_at, insert_pair_at, number_set_at, numbers_at, pair_set_at,
    pair_set_has, pairs_at, push_number_at, push_pair_at, set_has,
};

#[cfg(test)]
mod tests;
