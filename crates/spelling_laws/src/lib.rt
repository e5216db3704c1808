//! Which axioms can be written as a document: those that are read of one, and those of several ontologies put together. The
//! layers above merge ontologies, and take steps over them, by these laws.
#![tactic(auto)]

mod laws;

pub use laws::{
    gathering_keeps_spelling, ids_go_by_no_name, inclusions_keep_spelling, merging_keeps_spelling,
    named_classes_have_ids, part_keeps_spelling, read_can_be_written, spellable_is_of_set,
};
