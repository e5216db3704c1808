//! The normal form of a document, and its canonical text: one text for all documents that say the same by other words,
//! in another order or twice. The layers above write documents by `canonical`, and use of it what `laws` says.
#![tactic(auto)]

mod header;
mod kept;
mod laws;
mod normal;
mod settled;
mod text;

pub use laws::{
    canonical_is_of_set, canonical_reads_back, canonising_twice_is_once, norm_is_of_set,
};
pub use normal::norm;
pub use text::canonical;
