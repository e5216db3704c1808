//! What the names outside a signature are filled with.

/// What an outside class is.
#[derive(Clone, Copy, Debug, PartialEq, Eq)]
pub enum ClassFill {
    /// It has no element.
    Empty,
    /// It has every element.
    Full,
}

/// What an outside role is.
#[derive(Clone, Copy, Debug, PartialEq, Eq)]
pub enum RoleFill {
    /// It has no pair.
    Empty,
    /// It has every pair.
    Full,
    /// It has the pair of each element and itself, and no other.
    Identity,
}
