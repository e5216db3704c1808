//! One module for each crate whose answers are compared.
mod cuts;
mod extracts;
mod pools;
mod signatures;
mod steps;
mod verdicts;
