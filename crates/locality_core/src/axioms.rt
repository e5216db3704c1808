//! The test of an axiom.
ghost use Rattle.std.specs.Prelude.{◌≡◌, ◌+◌, ◌&&◌, ◌||◌, true};
ghost use Rattle.locality_tables.specs.Laws.{SatisfiedInFills};
ghost use Rattle.locality_tables.specs.Local.{is_local};
ghost use Rattle.locality_tables.specs.Verdict.{is_empty, is_empty_role, is_full, is_full_role, is_identity, is_outside_role, verdict};
ghost use Rattle.owl_axioms.specs.Signature.{scope_of};

use crate::rows::role_of;
use crate::{Boxes, Locality, verdict};
use locality_tables::{Finding, RoleFinding};
use owl_axioms::{Axiom, Body, ClassExpr, Sig};
use rel_io::Steps;
use std::sync::ledger::Ledger;

/// Whether an axiom is local: satisfied, whatever an ontology says of the names in the signature, where the names
/// outside are filled as the kind says. Each call counts once.
pub fn is_local<L: Locality, G: Ledger>(sig: &Sig, axiom: &Axiom, steps: &mut Steps<G>) -> bool
    ensures table { result ≡ is_local L.CLASSES L.ROLES (scope_of sig.now) «axiom».now.body }
    ensures holds { result ≡ true → SatisfiedInFills L.CLASSES L.ROLES (scope_of sig.now) «axiom».now.body }
    ensures ticks { steps.new ≡ steps.old + 1 }
{
    steps.tick();
    is_local_body::<L>(sig, &axiom.body)
}

/// Whether what an axiom says is local, by the table.
#[tactic(auto, unfolding(locality_tables::specs::Local::is_local, locality_tables::specs::Local::local_by))]
pub(crate) fn is_local_body<L: Locality>(sig: &Sig, body: &Body) -> bool
    ensures { result ≡ is_local L.CLASSES L.ROLES (scope_of sig.now) body.now }
{
    match body {
        Body::Sub(c, d) => sub_local(found::<L>(sig, c), found::<L>(sig, d)),
        Body::Equiv(c, d) => equiv_local(found::<L>(sig, c), found::<L>(sig, d)),
        Body::Disjoint(c, d) => disjoint_local(found::<L>(sig, c), found::<L>(sig, d)),
        Body::SubRole(r, s) => sub_role_local(role_of::<L>(sig, r), role_of::<L>(sig, s)),
        Body::Chain(r, s, t) => chain_local(
            role_of::<L>(sig, r),
            role_of::<L>(sig, s),
            role_of::<L>(sig, t),
        ),
        Body::EquivRoles(r, s) => both_outside(role_of::<L>(sig, r), role_of::<L>(sig, s)),
        Body::DisjointRoles(r, s) => one_empty(role_of::<L>(sig, r), role_of::<L>(sig, s)),
        Body::Inverse(r, s) => both_outside(role_of::<L>(sig, r), role_of::<L>(sig, s)),
        Body::Transitive(r) => role_of::<L>(sig, r).is_outside(),
        Body::Reflexive(r) => has_loops(role_of::<L>(sig, r)),
        Body::Symmetric(r) => role_of::<L>(sig, r).is_outside(),
        Body::Asymmetric(r) => role_of::<L>(sig, r).is_empty(),
        Body::Functional(r) => has_no_more(role_of::<L>(sig, r)),
        Body::InverseFunctional(r) => has_no_more(role_of::<L>(sig, r)),
        Body::Domain(r, c) => filled_local(role_of::<L>(sig, r), found::<L>(sig, c)),
        Body::Range(r, c) => filled_local(role_of::<L>(sig, r), found::<L>(sig, c)),
        Body::ClassAssertion(c, _) => found::<L>(sig, c).is_full(),
        Body::RoleAssertion(r, _, _) => role_of::<L>(sig, r).is_full(),
        Body::Declaration(_) => true,
        Body::Note(_, _, _) => true,
        Body::OntologyNote(_, _) => true,
    }
}

/// The verdict of an expression as a boxed tree.
fn found<L: Locality>(sig: &Sig, tree: &ClassExpr) -> Finding
    ensures { result ≡ verdict L.CLASSES L.ROLES (scope_of sig.now) tree.now }
{
    verdict::<L, Boxes>(&Boxes::new(), sig, tree)
}

/// A subclass axiom, by what is known of both classes.
pub(crate) fn sub_local(c: Finding, d: Finding) -> bool
    ensures { result ≡ (is_empty c || is_full d) }
{
    c.is_empty() || d.is_full()
}

/// Equivalent classes.
pub(crate) fn equiv_local(c: Finding, d: Finding) -> bool
    ensures { result ≡ ((is_empty c && is_empty d) || (is_full c && is_full d)) }
{
    (c.is_empty() && d.is_empty()) || (c.is_full() && d.is_full())
}

/// Disjoint classes.
pub(crate) fn disjoint_local(c: Finding, d: Finding) -> bool
    ensures { result ≡ (is_empty c || is_empty d) }
{
    c.is_empty() || d.is_empty()
}

/// A subrole axiom, by what is known of both roles.
fn sub_role_local(r: RoleFinding, s: RoleFinding) -> bool
    ensures { result ≡ (is_empty_role r || (is_full_role s || (is_identity r && is_identity s))) }
{
    r.is_empty() || s.is_full() || (r.is_identity() && s.is_identity())
}

/// A chain of two roles below a third.
fn chain_local(r: RoleFinding, s: RoleFinding, t: RoleFinding) -> bool
    ensures { result ≡ (is_empty_role r || (is_empty_role s || (is_full_role t || (is_identity r && (is_identity s && is_identity t))))) }
{
    r.is_empty()
        || s.is_empty()
        || t.is_full()
        || (r.is_identity() && s.is_identity() && t.is_identity())
}

/// Equivalent or inverse roles.
fn both_outside(r: RoleFinding, s: RoleFinding) -> bool
    ensures { result ≡ (is_outside_role r && is_outside_role s) }
{
    r.is_outside() && s.is_outside()
}

/// Disjoint roles.
fn one_empty(r: RoleFinding, s: RoleFinding) -> bool
    ensures { result ≡ (is_empty_role r || is_empty_role s) }
{
    r.is_empty() || s.is_empty()
}

/// A reflexive role.
fn has_loops(r: RoleFinding) -> bool
    ensures { result ≡ (is_full_role r || is_identity r) }
{
    r.is_full() || r.is_identity()
}

/// A functional or inverse functional role.
fn has_no_more(r: RoleFinding) -> bool
    ensures { result ≡ (is_empty_role r || is_identity r) }
{
    r.is_empty() || r.is_identity()
}

/// A domain or a range.
pub(crate) fn filled_local(r: RoleFinding, c: Finding) -> bool
    ensures { result ≡ (is_empty_role r || is_full c) }
{
    r.is_empty() || c.is_full()
}
