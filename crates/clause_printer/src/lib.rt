//! A clause is printed as a line that says it again. The layers above write their texts by `print_clause`, or by the parts
//! of a line.
#![tactic(auto)]

mod laws;
mod printer;

pub use laws::{
    clauses_are_printed_apart, comment_says_nothing, printed_line_spells_again, spelled_clauses_fit,
};
pub use printer::{print_clause, push_block, push_comment, push_qualifier, push_value, push_xref};
