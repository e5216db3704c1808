//! Small ontologies with all that is derived in them, and what reasoning makes of them.
mod derived;
mod reasoned;
