//! What a logical clause says of the entity of its frame, and the clause that says it; and the groups of clauses of a Term
//! that say one axiom together. The layers above translate the statements of documents by `statement_of` and `group_of`,
//! spell those of ontologies by `clause_of_statement` and `clauses_of_group`, and use of these what `laws` says.
#![tactic(auto)]

mod classes;
mod group;
mod group_meaning;
mod group_spelling;
mod ids;
mod laws;
mod meaning;
mod order;
mod sides;
mod spelling;
mod statements;
mod values;

pub use group::Group;
pub use group_meaning::group_of;
pub use group_spelling::clauses_of_group;
pub use laws::{
    group_reads_back, groups_are_in_order, spelled_groups_fit, spelled_statements_fit,
    statement_reads_back,
};
pub use meaning::statement_of;
pub use spelling::clause_of_statement;
pub use statements::is_statement;
