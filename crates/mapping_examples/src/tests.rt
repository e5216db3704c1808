//! One module for each crate whose answers are compared.
mod canonical;
mod notes;
mod statements;
mod translations;
