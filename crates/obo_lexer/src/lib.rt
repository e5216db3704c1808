//! The lines of an OBO file as its bytes come in, and the tokens of a line. The layer above feeds the
//! bytes in pieces of any length and takes numbered lines: whatever the pieces, the lines are those of
//! the whole file, in order, each with its text or with what keeps it from being one.
#![tactic(auto)]

mod feeder;
mod laws;
mod line;
mod token;

pub use feeder::LineFeeder;
pub use laws::{
    cutting_does_not_matter, lines_are_the_parts, tokens_are_unique, written_lines_are_read,
};
pub use line::{LineBody, LineItem};
pub use token::{Token, TokenKind, tokens};
