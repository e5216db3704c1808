//! One module for each crate whose answers are compared.
mod clauses;
mod documents;
mod iris;
mod lines;
mod pieces;
mod prefixes;
mod printed;
mod tables;
mod tags;
mod texts;
