//! `generate`: a document of any size, made by rule. The layer above runs a stated chain on it, so that the work of whole
//! chains is measured on documents that everybody can make again. `generate_seed` makes the seed of the extract in it.
#![tactic(auto)]

mod digits;
mod document;
mod frames;
mod seed;

pub use document::generate;
pub use seed::generate_seed;
