//! Which expressions and axioms are of the EL part.
ghost use Rattle.std.specs.Prelude.{◌≡◌, ◌+◌, ◌<◌, ◌^◌, ◌&&◌, if◌then◌else◌, not};
ghost use Rattle.std.specs.List.{list_all};
ghost use Rattle.owl_sem.specs.Models.{is_logical};
ghost use Rattle.owl_ontology.specs.Ontology.{axioms_of};
ghost use Rattle.el_rules.specs.ElPart as spec;

use owl_axioms::{Body, ClassExpr};
use owl_ontology::Ontology;

/// Whether an expression is one of owl:Thing, owl:Nothing, classes, intersections and existential restrictions alone.
#[cycle(testing)]
#[tactic(auto, using(crate::proofs::Layers::el_of_thing, crate::proofs::Layers::el_of_nothing, crate::proofs::Layers::el_of_class, crate::proofs::Layers::el_of_and, crate::proofs::Layers::el_of_or, crate::proofs::Layers::el_of_not, crate::proofs::Layers::el_of_some, crate::proofs::Layers::el_of_all, crate::proofs::Layers::el_of_min, crate::proofs::Layers::el_of_max, crate::proofs::Layers::el_of_exact))]
pub(crate) fn is_el(tree: &ClassExpr) -> bool
    ensures { result ≡ spec.is_el tree.now }
{
    match tree {
        ClassExpr::Thing => true,
        ClassExpr::Nothing => true,
        ClassExpr::Class(_) => true,
        ClassExpr::And(operands) => {
            operands.as_slice().len() >= 2 && are_el(operands.as_slice())
        }
        ClassExpr::Or(_) => false,
        ClassExpr::Not(_) => false,
        ClassExpr::Some(_, filler) => is_el(filler.get()),
        ClassExpr::All(_, _) => false,
        ClassExpr::Min(_, _, _) => false,
        ClassExpr::Max(_, _, _) => false,
        ClassExpr::Exact(_, _, _) => false,
    }
}

/// Whether all of some expressions are.
#[cycle(testing)]
fn are_el(trees: &[ClassExpr]) -> bool
    ensures { result ≡ list_all spec.is_el trees.now }
{
    for tree in trees {
        if !is_el(tree) {
            return false;
        }
    }
    true
}

/// Whether what an axiom says is logical and outside the EL part.
#[tactic(auto, unfolding(el_rules::specs::ElPart::el_bodies, owl_sem::specs::Models::is_logical))]
fn is_unused(body: &Body) -> bool
    ensures { result ≡ (is_logical body.now && not (spec.has_some (spec.el_bodies body.now))) }
{
    match body {
        Body::Sub(c, d) => !is_el(c) || !is_el(d),
        Body::Equiv(c, d) => !is_el(c) || !is_el(d),
        Body::Disjoint(c, d) => !is_el(c) || !is_el(d),
        Body::SubRole(_, _) => false,
        Body::Chain(_, _, _) => false,
        Body::EquivRoles(_, _) => false,
        Body::DisjointRoles(_, _) => true,
        Body::Inverse(_, _) => true,
        Body::Transitive(_) => false,
        Body::Reflexive(_) => true,
        Body::Symmetric(_) => true,
        Body::Asymmetric(_) => true,
        Body::Functional(_) => true,
        Body::InverseFunctional(_) => true,
        Body::Domain(_, c) => !is_el(c),
        Body::Range(_, _) => true,
        Body::ClassAssertion(_, _) => true,
        Body::RoleAssertion(_, _, _) => true,
        Body::Declaration(_) => false,
        Body::Note(_, _, _) => false,
        Body::OntologyNote(_, _) => false,
    }
}

/// One more where the test passes.
fn counted(count: u64, passes: bool) -> u64
    requires { count + 1 < 2 ^ 64 }
    ensures { result ≡ count + (if passes then 1 else 0) }
{
    if passes { count + 1 } else { count }
}

/// How many logical axioms are outside the EL part.
pub(crate) fn unused_count(ontology: &Ontology) -> u64
    ensures { result ≡ spec.unused_of (axioms_of ontology.now.entries) }
{
    let mut count = 0;
    for at in 0..ontology.len() {
        count = counted(count, is_unused(&ontology.get(at).body));
    }
    count
}
