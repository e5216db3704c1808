//! Lines of columns, as catalogs and term files have them: the lines of a text, one after the other, and the columns of a
//! line, before a comment. The layers above say what the columns mean.
#![tactic(auto)]

mod column;
mod line;

pub use column::{is_plain, next_column};
pub use line::{cut_line, without_return};
