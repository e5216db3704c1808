//! The step `extract`: what a method chooses of the logical axioms for a seed stays, with what is shipped with it. The layer
//! above calls `extract`; what is left is exactly what the definition `extracted` leaves, a part of what was there, and keeps
//! it over the names of the seed.
#![tactic(auto)]

mod choosing;
mod extracting;
mod known;
mod laws;

pub use extracting::{Extracted, extract};
pub use laws::{extracted_is_part, extracting_keeps};
