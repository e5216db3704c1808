//! The groups of clauses of a Term.

/// Which clauses of a Term say one axiom together.
#[derive(Clone, Copy, Debug, PartialEq, Eq)]
pub enum Group {
    /// Those of `intersection_of`.
    Intersection,
    /// Those of `union_of`.
    Union,
}
