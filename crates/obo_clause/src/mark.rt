//! What the value of a clause is made of.

/// A byte as it is read, and whether a backslash stood before it.
#[derive(Clone, Copy, PartialEq, Eq)]
pub struct MarkedByte {
    /// The byte, as it is read: the one that is meant where a backslash stood before it.
    pub byte: u8,
    /// Whether a backslash stood before it.
    pub is_escaped: bool,
}
