//! An EL part over numbers.
use fact_rows::Numbers;

/// The number of Thing.
pub const THING: u32 = 0;

/// The number of Nothing.
pub const NOTHING: u32 = 1;

/// What an expression is, of which the rules need to know no more.
#[derive(Clone, Copy, Debug, PartialEq, Eq)]
pub enum Shape {
    /// Thing, Nothing, or a class.
    Name,
    /// An intersection. Its operands stand beside the shapes.
    And,
    /// An existential restriction: its role and its filler.
    Some(u32, u32),
}

/// The expressions that occur and the axioms of the EL part, by numbers of expressions and of roles. Equivalences stand
/// as two inclusions, of classes or of roles, and a transitive role as a chain of it with itself.
#[derive(Drop)]
pub struct NumberedPart {
    /// The shape of each expression. Thing is 0 and Nothing is 1.
    pub shapes: Vec<Shape>,
    /// The operands of each intersection, at its number.
    pub operands: Vec<Numbers>,
    /// How many roles there are.
    pub role_count: u32,
    /// Inclusions: the sub class and the super class.
    pub inclusions: Vec<(u32, u32)>,
    /// Disjoint classes, two and two.
    pub disjoints: Vec<(u32, u32)>,
    /// Inclusions of roles: the sub role and the super role.
    pub role_inclusions: Vec<(u32, u32)>,
    /// Chains: two roles and the role that they imply.
    pub chains: Vec<(u32, u32, u32)>,
    /// Domains: a role and a class.
    pub domains: Vec<(u32, u32)>,
}
