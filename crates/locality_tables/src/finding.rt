//! What is known of an expression and of a role.
ghost use Rattle.std.specs.Prelude.{◌≡◌};
ghost use Rattle.locality_tables.specs.Verdict.{is_empty, is_empty_role, is_full, is_full_role, is_identity, is_outside_role};

use crate::RoleFill;

/// What is known of the elements of an expression.
#[derive(Clone, Copy, Debug, PartialEq, Eq)]
pub enum Finding {
    /// It has none.
    Empty,
    /// It has all.
    Full,
    /// Nothing is known.
    Unknown,
}

/// What is known of the pairs of a role: nothing of one inside, and otherwise how it is filled.
#[derive(Clone, Copy, Debug, PartialEq, Eq)]
pub enum RoleFinding {
    /// The role is inside.
    Inside,
    /// The role is outside.
    Filled(RoleFill),
}

impl Finding {
    /// Whether it is `Empty`.
    pub fn is_empty(self) -> bool
        ensures { result ≡ is_empty self }
    {
        self == Finding::Empty
    }

    /// Whether it is `Full`.
    pub fn is_full(self) -> bool
        ensures { result ≡ is_full self }
    {
        self == Finding::Full
    }
}

impl RoleFinding {
    /// Whether the role is outside and has no pair.
    pub fn is_empty(self) -> bool
        ensures { result ≡ is_empty_role self }
    {
        matches!(self, RoleFinding::Filled(RoleFill::Empty))
    }

    /// Whether the role is outside and has every pair.
    pub fn is_full(self) -> bool
        ensures { result ≡ is_full_role self }
    {
        matches!(self, RoleFinding::Filled(RoleFill::Full))
    }

    /// Whether the role is outside and the identity.
    pub fn is_identity(self) -> bool
        ensures { result ≡ is_identity self }
    {
        matches!(self, RoleFinding::Filled(RoleFill::Identity))
    }

    /// Whether the role is outside.
    pub fn is_outside(self) -> bool
        ensures { result ≡ is_outside_role self }
    {
        matches!(self, RoleFinding::Filled(_))
    }
}
