//! Which files are read, and what they come to.
mod ground;
mod imports;
mod merged;
