//! The tags of statements, and what a clause of each states.
ghost use Rattle.std.specs.Prelude.{◌≡◌, is_some, map};
ghost use Rattle.std.specs.Option.{option_map};
ghost use Rattle.text_sets.specs.Parts.{first_some};
ghost use Rattle.obo_statements.specs.Statements.{statement_in, statements_of};
ghost use Rattle.obo_statements.specs.inner.Rows.{meant, row_meant};

use obo_tags::FrameKind;

/// The characters of a property.
#[derive(Clone, Copy)]
pub enum Character {
    /// Transitive.
    Transitive,
    /// Reflexive.
    Reflexive,
    /// Symmetric.
    Symmetric,
    /// Asymmetric.
    Asymmetric,
    /// Functional.
    Functional,
    /// Inverse functional.
    InverseFunctional,
}

/// What clauses state.
#[derive(Clone, Copy)]
pub enum Statement {
    /// A superclass, as of `is_a` in a Term.
    BelowClass,
    /// A restriction as a superclass, as of `relationship` in a Term.
    Restricted,
    /// An equivalent class.
    SameClass,
    /// A disjoint class.
    DisjointClass,
    /// A superproperty, as of `is_a` in a Typedef.
    BelowRole,
    /// An equivalent property.
    SameRole,
    /// A disjoint property.
    DisjointRole,
    /// An inverse property.
    InverseRole,
    /// A character of a property.
    HasCharacter(Character),
    /// The domain of a property.
    HasDomain,
    /// The range of a property.
    HasRange,
    /// A property over which this one is transitive.
    Over,
    /// A chain of two properties.
    Chain,
    /// The class of an individual, as of `instance_of`.
    Member,
    /// What an individual is related to, as of `relationship` in an Instance.
    Related,
}

/// A tag, and what its clauses state.
pub type Row = (&'static [u8], Statement);

/// The tags that state something in frames of a kind.
#[tactic(auto, unfolding(crate::specs::Statements::statements_of))]
pub fn rows(kind: FrameKind) -> &'static [Row]
    ensures { map row_meant result.now ≡ statements_of kind }
{
    match kind {
        FrameKind::Header => &[],
        FrameKind::Term => &TERM,
        FrameKind::Typedef => &TYPEDEF,
        FrameKind::Instance => &INSTANCE,
    }
}

/// What clauses of a tag state in frames of a kind.
pub fn statement_with(kind: FrameKind, tag: &[u8]) -> Option<Statement>
    ensures { option_map meant result ≡ first_some (statement_in tag.now) (statements_of kind) }
{
    let table = rows(kind);
    for row in table {
        if row.0 == tag {
            return Some(row.1);
        }
    }
    None
}

/// Whether clauses of a tag state something in frames of a kind.
pub fn is_statement(kind: FrameKind, tag: &[u8]) -> bool
    ensures { result ≡ is_some (first_some (statement_in tag.now) (statements_of kind)) }
{
    statement_with(kind, tag).is_some()
}

/// In a Term.
static TERM: [Row; 4] = [
    (b"is_a", Statement::BelowClass),
    (b"relationship", Statement::Restricted),
    (b"equivalent_to", Statement::SameClass),
    (b"disjoint_from", Statement::DisjointClass),
];

/// In a Typedef: `transitive_over` is tried before `holds_over_chain`.
static TYPEDEF: [Row; 14] = [
    (b"domain", Statement::HasDomain),
    (b"range", Statement::HasRange),
    (
        b"is_reflexive",
        Statement::HasCharacter(Character::Reflexive),
    ),
    (
        b"is_symmetric",
        Statement::HasCharacter(Character::Symmetric),
    ),
    (
        b"is_asymmetric",
        Statement::HasCharacter(Character::Asymmetric),
    ),
    (
        b"is_transitive",
        Statement::HasCharacter(Character::Transitive),
    ),
    (
        b"is_functional",
        Statement::HasCharacter(Character::Functional),
    ),
    (
        b"is_inverse_functional",
        Statement::HasCharacter(Character::InverseFunctional),
    ),
    (b"is_a", Statement::BelowRole),
    (b"transitive_over", Statement::Over),
    (b"holds_over_chain", Statement::Chain),
    (b"equivalent_to", Statement::SameRole),
    (b"disjoint_from", Statement::DisjointRole),
    (b"inverse_of", Statement::InverseRole),
];

/// In an Instance.
static INSTANCE: [Row; 2] = [
    (b"instance_of", Statement::Member),
    (b"relationship", Statement::Related),
];
