//! Facts: what the rules derive.

/// A fact about numbered expressions.
#[derive(Clone, Copy, Debug, PartialEq, Eq)]
pub enum Fact {
    /// The first expression is subsumed by the second.
    Below(u32, u32),
    /// The first expression has a link by a role, the second number, to the third.
    Link(u32, u32, u32),
}
