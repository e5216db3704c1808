//! The tags of OBO frames: which ones each frame kind has, in the order in which they are printed, and what
//! value stands behind each. The layer above reads and prints clauses by this table alone.
#![tactic(auto)]

mod kind;
mod laws;
mod table;
mod tag;

pub use kind::{FrameKind, ValueShape};
pub use laws::raw_is_foreign;
pub use tag::{Tag, rank, shape, tag_of};
