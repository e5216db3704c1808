//! Documents as sets of clauses: what the laws of the mapping ask of such a set holds of every document. The layers above
//! use it where they translate documents, or print their normal forms.
#![tactic(auto)]

mod laws;

pub use laws::{documents_are_sound, said_is_proper};
