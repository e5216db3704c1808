//! What a line of an OBO file says: it is blank, begins a frame, or spells one clause; and where it is none of these,
//! the one fault that is met first from left to right. The types and definitions stand here, with the laws that follow
//! from them; the crates above read lines and print clauses by them.
#![tactic(auto)]

mod bytes;
mod clause;
mod fit;
mod laws;
mod line;
mod mark;

pub use bytes::{ends_key, is_blank, is_tag};
pub use clause::{Clause, QualifiedValue, Qualifier, Scope, Value, Xref};
pub use fit::{fits, shape_at};
pub use laws::{
    foreign_clauses_are_raw, line_fails_one_way, line_has_answer, line_never_says_and_fails,
    line_says_one_thing,
};
pub use line::{Line, LineFault, SyntaxKind};
pub use mark::MarkedByte;
