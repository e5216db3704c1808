//! What a line says is read from left to right, once. The layer above reads documents by `read_line` alone, whose
//! answer is what the line says, or the one thing that is wrong with it.
#![tactic(auto)]

mod blocks;
mod bytes;
mod lists;
mod marks;
mod reader;
mod runs;
mod scopes;
mod values;

pub use reader::read_line;
