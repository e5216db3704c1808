//! `clause_of_statement`: the clause that states an axiom. The tag and the value go by what the axiom says, the qualifiers
//! by its annotations.
ghost use Rattle.std.specs.Prelude.{◌≡◌, IfOk, codes};
ghost use Rattle.std.specs.Option.{option_map, option_or};
ghost use Rattle.std.specs.Str.{bytes_eq};
ghost use Rattle.obo_tags.specs.declared.kind.FrameKind.TheVariants as kinds;
ghost use Rattle.owl_axioms.specs.declared.body.Body.TheVariants as bodies;
ghost use Rattle.obo_notes.specs.Context.{where_true, writing_in};
ghost use Rattle.obo_statements.specs.Statements.{statement_spelling};
ghost use Rattle.obo_statements.specs.inner.Spelled as inner;

use crate::ids::is_class;
use crate::values::{
    Tagged, other_class_value, other_role_value, restriction_value, same, with_class, with_pair,
    with_role, with_truth, with_value,
};
use obo_clause::Clause;
use obo_notes::qualifiers_of;
use obo_tags::FrameKind;
use owl_axioms::{Axiom, Body, ClassExpr};
use rel_io::{Bytes, Iri, NoMemory};
use std::alloc::Global;

/// The clause that states the axiom in a frame of the entity with this IRI, in an ontology of this name. `None` exactly
/// where no tag of the frame's kind states it of this entity, or an annotation of it is no qualifier. It takes time in
/// proportion to the axiom, but for the sort of the qualifiers.
#[tactic(auto, using(crate::proofs::TaggedLemmas::statement_tagged))]
pub fn clause_of_statement(
    alloc: Global,
    space: &Bytes,
    kind: FrameKind,
    x: &Iri,
    stated: &Axiom,
) -> Result<Option<Clause>, NoMemory>
    ensures exact { IfOk result (λ clause. clause ≡ statement_spelling (writing_in space.now) kind x.now stated.now) }
{
    let Some(qualifiers) = qualifiers_of(alloc, stated.sides.as_slice())? else {
        return Ok(None);
    };
    match tagged_in(alloc, space, kind, x, &stated.body)? {
        Some(said) => Ok(Some(Clause {
            tag: said.tag,
            value: said.value,
            qualifiers,
        })),
        None => Ok(None),
    }
}

/// The tag and the value by which the entity with this IRI states what the axiom says.
#[tactic(auto, unfolding(crate::specs::Statements::statements_of))]
fn tagged_in(
    alloc: Global,
    space: &Bytes,
    kind: FrameKind,
    x: &Iri,
    body: &Body,
) -> Result<Option<Tagged>, NoMemory>
    ensures { IfOk result (λ one. one ≡ inner.tagged_in (writing_in space.now) kind x.now body.now) }
{
    match kind {
        FrameKind::Header => Ok(None),
        FrameKind::Term => of_class(alloc, space, x, body),
        FrameKind::Typedef => of_role(alloc, space, x, body),
        FrameKind::Instance => of_individual(alloc, space, x, body),
    }
}

/// The tag and the value by which a Term states what the axiom says.
#[tactic(auto, unfolding(crate::specs::Statements::statements_of, crate::specs::Values::value_plainly))]
fn of_class(alloc: Global, space: &Bytes, x: &Iri, body: &Body) -> Result<Option<Tagged>, NoMemory>
    ensures { IfOk result (λ one. one ≡ inner.tagged_in (writing_in space.now) kinds.Term x.now body.now) }
{
    match body {
        Body::Sub(below, above) => below_class(alloc, space, x, below, above),
        Body::Equiv(one, other) => {
            let value = other_class_value(alloc, space, x, one, other)?;
            with_value(alloc, b"equivalent_to", value)
        }
        Body::Disjoint(one, other) => {
            let value = other_class_value(alloc, space, x, one, other)?;
            with_value(alloc, b"disjoint_from", value)
        }
        _ => Ok(None),
    }
}

/// The tag and the value by which a Term states that a class is below an expression: `is_a` where it is a class, and
/// `relationship` where it is what has a filler of a class.
#[tactic(auto, unfolding(crate::specs::Statements::statements_of, crate::specs::Values::value_plainly))]
fn below_class(
    alloc: Global,
    space: &Bytes,
    x: &Iri,
    below: &ClassExpr,
    above: &ClassExpr,
) -> Result<Option<Tagged>, NoMemory>
    ensures { IfOk result (λ one. one ≡
        inner.tagged_in (writing_in space.now) kinds.Term x.now (bodies.Sub below.now above.now)) }
{
    if !is_class(x, below) {
        return Ok(None);
    }
    match with_class(alloc, space, b"is_a", true, above)? {
        Some(said) => Ok(Some(said)),
        None => {
            let value = restriction_value(alloc, space, above)?;
            with_value(alloc, b"relationship", value)
        }
    }
}

/// The tag and the value by which a Typedef states what the axiom says.
#[tactic(auto, unfolding(crate::specs::Statements::statements_of, crate::specs::Values::value_plainly))]
fn of_role(alloc: Global, space: &Bytes, x: &Iri, body: &Body) -> Result<Option<Tagged>, NoMemory>
    ensures { IfOk result (λ one. one ≡ inner.tagged_in (writing_in space.now) kinds.Typedef x.now body.now) }
{
    match body {
        Body::Domain(role, class) => with_class(alloc, space, b"domain", same(x, role), class),
        Body::Range(role, class) => with_class(alloc, space, b"range", same(x, role), class),
        Body::Reflexive(role) => with_truth(alloc, b"is_reflexive", same(x, role)),
        Body::Symmetric(role) => with_truth(alloc, b"is_symmetric", same(x, role)),
        Body::Asymmetric(role) => with_truth(alloc, b"is_asymmetric", same(x, role)),
        Body::Transitive(role) => with_truth(alloc, b"is_transitive", same(x, role)),
        Body::Functional(role) => with_truth(alloc, b"is_functional", same(x, role)),
        Body::InverseFunctional(role) => {
            with_truth(alloc, b"is_inverse_functional", same(x, role))
        }
        Body::SubRole(below, above) => with_role(alloc, space, b"is_a", same(x, below), above),
        Body::Chain(first, second, whole) => chain(alloc, space, x, first, second, whole),
        _ => of_two_roles(alloc, space, x, body),
    }
}

/// The tag and the value by which a Typedef states what an axiom says of two roles in any order.
#[tactic(auto, unfolding(crate::specs::Statements::statements_of, crate::specs::Values::value_plainly))]
fn of_two_roles(
    alloc: Global,
    space: &Bytes,
    x: &Iri,
    body: &Body,
) -> Result<Option<Tagged>, NoMemory>
    ensures { IfOk result (λ one. one ≡ inner.tagged_pair (writing_in space.now) x.now body.now) }
{
    match body {
        Body::EquivRoles(one, other) => {
            let value = other_role_value(alloc, space, x, one, other)?;
            with_value(alloc, b"equivalent_to", value)
        }
        Body::DisjointRoles(one, other) => {
            let value = other_role_value(alloc, space, x, one, other)?;
            with_value(alloc, b"disjoint_from", value)
        }
        Body::Inverse(one, other) => {
            let value = other_role_value(alloc, space, x, one, other)?;
            with_value(alloc, b"inverse_of", value)
        }
        _ => Ok(None),
    }
}

/// The tag and the value by which a Typedef states a chain: `transitive_over` where the first role is the whole one.
#[tactic(auto, unfolding(crate::specs::Statements::statements_of, crate::specs::Values::value_plainly))]
fn chain(
    alloc: Global,
    space: &Bytes,
    x: &Iri,
    first: &Iri,
    second: &Iri,
    whole: &Iri,
) -> Result<Option<Tagged>, NoMemory>
    ensures { IfOk result (λ one. one ≡
        inner.tagged_in (writing_in space.now) kinds.Typedef x.now (bodies.Chain first.now second.now whole.now)) }
{
    let is_over = same(x, first) && same(x, whole);
    match with_role(alloc, space, b"transitive_over", is_over, second)? {
        Some(said) => Ok(Some(said)),
        None => with_pair(
            alloc,
            space,
            b"holds_over_chain",
            same(x, whole),
            first,
            second,
        ),
    }
}

/// The tag and the value by which an Instance states what the axiom says.
#[tactic(auto, unfolding(crate::specs::Statements::statements_of, crate::specs::Values::value_plainly))]
fn of_individual(
    alloc: Global,
    space: &Bytes,
    x: &Iri,
    body: &Body,
) -> Result<Option<Tagged>, NoMemory>
    ensures { IfOk result (λ one. one ≡ inner.tagged_in (writing_in space.now) kinds.Instance x.now body.now) }
{
    match body {
        Body::ClassAssertion(class, name) => {
            with_class(alloc, space, b"instance_of", same(x, name), class)
        }
        Body::RoleAssertion(role, from, to) => {
            with_pair(alloc, space, b"relationship", same(x, from), role, to)
        }
        _ => Ok(None),
    }
}
