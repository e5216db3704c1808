//! The ground, the words, the axioms and the texts of a run, each compared by itself; and whole runs, in memory and over real
//! files.
mod devices;
mod ground;
mod limits;
mod ontologies;
mod real_files;
mod refused;
mod refused_memory;
mod reports;
mod rows;
mod runs;
mod seeds;
mod steps;
mod values;
mod words;
