//! Term files: the entities from which a module is extracted, one a line. A term file is read as a seed, or its least refused
//! line is named. The layer above extracts the module of the seed.
#![tactic(auto)]

mod seed;
mod terms;

pub use seed::{Seed, SeedFault, read_seed};
