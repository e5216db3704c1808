//! The arguments of a release: which chain of commands they ask for, or the first one that is wrong. The layer above calls
//! `read_words` alone and rests on one equation: its answer is that of the definition `chain`, which is the table of
//! commands and options read from left to right, or memory ran out.
#![tactic(auto)]

mod clash;
mod command;
mod draft;
mod fault;
mod given;
mod laws;
mod lists;
mod number;
mod read;
mod setting;
mod step;
mod table;
mod word;

pub use command::{Chain, Command, Format, Method, Output, Step};
pub use fault::{WordFault, WordKind};
pub use laws::{
    chains_are_well_formed, formats_follow_names, merge_is_first, options_change_places,
    outputs_stand_apart, sizes_are_bounded, well_formed_chains_have_words,
};
pub use read::read_words;
