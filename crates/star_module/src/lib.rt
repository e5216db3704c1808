//! The alternation of bottom and top modules until nothing is dropped. The layer above takes from it that what is kept in the
//! end keeps all logical axioms over the signature and its own names, and how many rounds there were.
#![tactic(auto)]

mod alternation;
mod laws;

pub use alternation::{StarPart, star};
pub use laws::{rounds_keep, star_is_told};
