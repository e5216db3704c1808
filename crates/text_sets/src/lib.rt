//! Lists that stand for sets: sorted by a text without repeats, and split into what fits a part and what is left. The
//! layers above say by these notions what a document, an ontology and a clause hold, whatever the order and the repeats.
#![tactic(auto)]

mod keyed;

pub use keyed::{Keyed, items_of, sorted_once};
