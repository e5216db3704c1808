//! `ElAxiom`: an axiom of the EL part over nodes.
use expr_pool::Node;
use rel_io::Iri;

/// An axiom of an EL part. Equivalences stand there as two inclusions, of classes or of roles, and a transitive role as a
/// chain of it with itself.
#[derive(Drop)]
pub enum ElAxiom {
    /// The first is a subclass of the second.
    Sub(Node, Node),
    /// Both are disjoint classes.
    Disjoint(Node, Node),
    /// What has a filler by the role is in the class.
    Domain(Iri, Node),
    /// The first is a subrole of the second.
    SubRole(Iri, Iri),
    /// The chain of the first and the second is a subrole of the third.
    Chain(Iri, Iri, Iri),
}
