//! Catalogs: files that say where imports are found. A catalog is read as its lines, or its least refused line is named; and
//! the name of the file that an import stands for is found by them. The layer above reads what is imported by these names.
#![tactic(auto)]

mod catalog;
mod name;

pub use catalog::{CatalogFault, CatalogLine, read_catalog};
pub use name::{import_name, name_table};
