//! Axioms are made: their pair in order, their annotations sorted by their text and each kept once.
ghost use Rattle.std.specs.Prelude.{◌≡◌, IfOk, IsTrue, map, not};
ghost use Rattle.std.specs.List.{list_all};
ghost use Rattle.owl_axioms.specs.Made as maker;
ghost use Rattle.owl_axioms.specs.Made.{IsAxiomOf, IsSortedSet, is_proper_unordered, ordered};
ghost use Rattle.owl_axioms.specs.Proper.{IsProper, in_order, is_proper_side};
ghost use Rattle.owl_axioms.specs.Text as spec;
ghost use Rattle.owl_axioms.specs.inner.Sorting.{worded};

use crate::body::of_two;
use crate::sorting::{self, Worded};
use crate::text::{text_of_expr, text_of_iri, text_of_side};
use crate::{Axiom, Body, ClassExpr, Side};
use rel_io::{Dup, Iri, Items, NoMemory};
use std::alloc::Global;

/// The axiom that says this, with these annotations: its pair in order, its annotations sorted and without repeats.
pub fn axiom_of(alloc: Global, body: Body, sides: Vec<Side>) -> Result<Axiom, NoMemory>
    requires body { IsTrue (is_proper_unordered body) }
    requires sides { IsTrue (list_all is_proper_side sides.items) }
    ensures parts { IfOk result (λ made. IsAxiomOf body sides.items made) }
    ensures proper { IfOk result (λ made. IsProper made) }
{
    match pair_in_order(alloc, body) {
        Ok(body) => with_sides(alloc, body, sides),
        Err(fault) => Err(fault),
    }
}

/// An axiom that says this, with its annotations sorted and without repeats.
fn with_sides(alloc: Global, body: Body, sides: Vec<Side>) -> Result<Axiom, NoMemory>
    requires sides { IsTrue (list_all is_proper_side sides.items) }
    ensures body { IfOk result (λ made. made.body ≡ body) }
    ensures sides { IfOk result (λ made. IsSortedSet spec.side_text sides.items made.sides) }
{
    match sorted_sides(alloc, sides) {
        Ok(sides) => Ok(Axiom {
            body,
            sides: Items::from_vec(sides),
        }),
        Err(fault) => {
            drop(body);
            Err(fault)
        }
    }
}

/// What an axiom says, its pair in order.
#[tactic(auto, unfolding(crate::specs::Made::ordered))]
fn pair_in_order(alloc: Global, body: Body) -> Result<Body, NoMemory>
    ensures { IfOk result (λ made. made ≡ ordered body) }
{
    match is_reversed(alloc, &body) {
        Ok(false) => Ok(body),
        Ok(true) => {
            let twin = swapped(alloc, &body);
            drop(body);
            twin
        }
        Err(fault) => {
            drop(body);
            Err(fault)
        }
    }
}

/// Whether the text-least of a pair stands second.
#[tactic(auto, unfolding(crate::specs::Made::is_reversed))]
fn is_reversed(alloc: Global, body: &Body) -> Result<bool, NoMemory>
    ensures { IfOk result (λ is. is ≡ maker.is_reversed body.now) }
{
    match body {
        Body::Equiv(one, other) => is_second_less(alloc, one, other),
        Body::Disjoint(one, other) => is_second_less(alloc, one, other),
        Body::EquivRoles(one, other) => is_second_role_less(alloc, one, other),
        Body::DisjointRoles(one, other) => is_second_role_less(alloc, one, other),
        Body::Inverse(one, other) => is_second_role_less(alloc, one, other),
        _ => Ok(false),
    }
}

/// Whether the second of two expressions is text-less than the first.
fn is_second_less(alloc: Global, one: &ClassExpr, other: &ClassExpr) -> Result<bool, NoMemory>
    ensures { IfOk result (λ is. is ≡ not (in_order (spec.expr_text one.now) (spec.expr_text other.now))) }
{
    let first = text_of_expr(alloc, one)?;
    let second = text_of_expr(alloc, other)?;
    Ok(!is_in_order(first.as_slice(), second.as_slice()))
}

/// Whether the second of two properties is text-less than the first.
fn is_second_role_less(alloc: Global, one: &Iri, other: &Iri) -> Result<bool, NoMemory>
    ensures { IfOk result (λ is. is ≡ not (in_order (spec.iri_text one.now) (spec.iri_text other.now))) }
{
    let first = text_of_iri(alloc, one)?;
    let second = text_of_iri(alloc, other)?;
    Ok(!is_in_order(first.as_slice(), second.as_slice()))
}

/// Whether the first of two texts is not above the second.
#[tactic(auto, unfolding(crate::specs::Proper::in_order))]
fn is_in_order(one: &[u8], other: &[u8]) -> bool
    ensures { result ≡ in_order one.now other.now }
{
    !one.cmp(other).is_gt()
}

/// What an axiom says, with its pair the other way round. It is a copy, since few pairs have to be turned.
#[tactic(auto, unfolding(crate::specs::Made::swapped))]
fn swapped(alloc: Global, body: &Body) -> Result<Body, NoMemory>
    ensures { IfOk result (λ twin. twin ≡ maker.swapped body.now) }
{
    match body {
        Body::Equiv(one, other) => of_two(alloc, other, one, Body::Equiv),
        Body::Disjoint(one, other) => of_two(alloc, other, one, Body::Disjoint),
        Body::EquivRoles(one, other) => of_two(alloc, other, one, Body::EquivRoles),
        Body::DisjointRoles(one, other) => of_two(alloc, other, one, Body::DisjointRoles),
        Body::Inverse(one, other) => of_two(alloc, other, one, Body::Inverse),
        other => other.copy(alloc),
    }
}

/// The annotations sorted by their text, each once.
fn sorted_sides(alloc: Global, sides: Vec<Side>) -> Result<Vec<Side>, NoMemory>
    requires proper { IsTrue (list_all is_proper_side sides.items) }
    ensures { IfOk result (λ kept. IsSortedSet spec.side_text sides.items kept.items) }
{
    let list = worded_sides(alloc, sides)?;
    sorting::values(alloc, sorting::ordered(list))
}

/// Each annotation beside its text.
fn worded_sides(alloc: Global, sides: Vec<Side>) -> Result<Vec<Worded<Side>>, NoMemory>
    ensures { IfOk result (λ list. list.items ≡ map (worded spec.side_text) sides.items) }
{
    let mut list = Vec::with_capacity(alloc, sides.len())?;
    for value in sides {
        let text = text_of_side(alloc, &value)?;
        list.push(Worded { text, value })?;
    }
    Ok(list)
}
