//! `statement_of`: what a clause states of the entity of its frame. Each shape of a value is read by a function of its own.
ghost use Rattle.std.specs.Prelude.{◌≡◌, true, IfOk};
ghost use Rattle.obo_clause.specs.declared.clause.Value.TheVariants as value;
ghost use Rattle.owl_axioms.specs.Text.{iri_text};
ghost use Rattle.obo_notes.specs.Context.{Reading, reading_in};
ghost use Rattle.obo_statements.specs.Extras.{extras_of};
ghost use Rattle.obo_statements.specs.Statements.{statement_meaning};
ghost use Rattle.obo_statements.specs.Values as spec;
ghost use Rattle.obo_statements.specs.inner.Order.{IsMadeOf, in_text_order};
ghost use Rattle.obo_statements.specs.inner.Rows.{character_meant, meant};

use crate::classes::restriction;
use crate::order::iris_in_order;
use crate::sides::{annotations_of, has_extras};
use crate::statements::{Character, Statement, statement_with};
use iri_map::iri_of;
use obo_clause::{Clause, Value};
use obo_tags::FrameKind;
use owl_axioms::{Axiom, Body, class_named};
use rel_io::{Bytes, Dup, Iri, NoMemory};
use std::alloc::Global;

/// The axiom that a clause states of the entity with this IRI, in a frame of the kind, in an ontology of this name; its
/// qualifiers are annotations, in the order of their texts, each once. `None` exactly where the clause states nothing, by
/// its tag, by its value, or by a qualifier that has a meaning of its own. It takes time in proportion to the clause, but
/// for the sort.
#[tactic(auto, unfolding(crate::specs::Statements::statement_meaning))]
pub fn statement_of(
    alloc: Global,
    space: &Bytes,
    kind: FrameKind,
    x: &Iri,
    clause: &Clause,
) -> Result<Option<Axiom>, NoMemory>
    ensures exact { IfOk result (λ said. said ≡ statement_meaning (reading_in space.now) kind x.now clause.now) }
{
    let Some(statement) = statement_with(kind, clause.tag.as_slice()) else {
        return Ok(None);
    };
    let sides = annotations_of(alloc, clause.qualifiers.as_slice())?;
    match stated(alloc, space, x, statement, clause)? {
        Some(body) => Ok(Some(Axiom { body, sides })),
        None => Ok(None),
    }
}

/// What the value of a clause says, together with the qualifiers that have a meaning of their own.
fn stated(
    alloc: Global,
    space: &Bytes,
    x: &Iri,
    statement: Statement,
    clause: &Clause,
) -> Result<Option<Body>, NoMemory>
    ensures { IfOk result (λ body. body ≡ spec.stated (reading_in space.now) x.now (meant statement)
        (extras_of clause.now.qualifiers) clause.now.value) }
{
    if has_extras(clause.qualifiers.as_slice()) {
        Ok(None)
    } else {
        stated_plainly(alloc, space, x, statement, &clause.value)
    }
}

/// What a value says, without such qualifiers.
#[tactic(auto, unfolding(crate::specs::Values::stated_plainly))]
fn stated_plainly(
    alloc: Global,
    space: &Bytes,
    x: &Iri,
    statement: Statement,
    value: &Value,
) -> Result<Option<Body>, NoMemory>
    ensures { IfOk result
        (λ body. body ≡ spec.stated_plainly (reading_in space.now) x.now (meant statement) value.now) }
{
    match value {
        Value::Id(id) => stated_by_id(alloc, space, x, statement, id),
        Value::Pair(first, second) => stated_by_pair(alloc, space, x, statement, first, second),
        Value::Bool(true) => stated_by_truth(alloc, x, statement),
        _ => Ok(None),
    }
}

/// What an id says.
#[tactic(auto, unfolding(crate::specs::Values::stated_plainly))]
fn stated_by_id(
    alloc: Global,
    space: &Bytes,
    x: &Iri,
    statement: Statement,
    id: &Bytes,
) -> Result<Option<Body>, NoMemory>
    ensures { IfOk result
        (λ body. body ≡ spec.stated_plainly (reading_in space.now) x.now (meant statement) (value.Id id.now)) }
{
    let other = iri_of(alloc, id, space)?;
    let x = x.copy(alloc)?;
    match statement {
        Statement::BelowClass => Ok(Some(Body::Sub(class_named(x), class_named(other)))),
        Statement::SameClass => pair_of(alloc, x, other, same_classes),
        Statement::DisjointClass => pair_of(alloc, x, other, disjoint_classes),
        Statement::BelowRole => Ok(Some(Body::SubRole(x, other))),
        Statement::SameRole => pair_of(alloc, x, other, Body::EquivRoles),
        Statement::DisjointRole => pair_of(alloc, x, other, Body::DisjointRoles),
        Statement::InverseRole => pair_of(alloc, x, other, Body::Inverse),
        Statement::HasDomain => Ok(Some(Body::Domain(x, class_named(other)))),
        Statement::HasRange => Ok(Some(Body::Range(x, class_named(other)))),
        Statement::Over => {
            let whole = x.copy(alloc)?;
            Ok(Some(Body::Chain(x, other, whole)))
        }
        Statement::Member => Ok(Some(Body::ClassAssertion(class_named(other), x))),
        _ => Ok(None),
    }
}

/// What is said of two properties or classes, the one with the least text first.
fn pair_of<F: FnOnce(Iri, Iri) -> Body + Drop>(
    alloc: Global,
    one: Iri,
    other: Iri,
    make: F,
) -> Result<Option<Body>, NoMemory>
    requires { F.IsAlwaysCallable make }
    ensures { IfOk result (λ made. IsMadeOf F.post make (in_text_order iri_text one other) made) }
{
    let (first, second) = iris_in_order(alloc, one, other)?;
    Ok(Some(make(first, second)))
}

/// That the classes with these IRIs are equivalent.
fn same_classes(one: Iri, other: Iri) -> Body
    ensures { result ≡ spec.same_classes one other }
{
    Body::Equiv(class_named(one), class_named(other))
}

/// That they are disjoint.
fn disjoint_classes(one: Iri, other: Iri) -> Body
    ensures { result ≡ spec.disjoint_classes one other }
{
    Body::Disjoint(class_named(one), class_named(other))
}

/// What two ids say.
#[tactic(auto, unfolding(crate::specs::Values::stated_plainly))]
fn stated_by_pair(
    alloc: Global,
    space: &Bytes,
    x: &Iri,
    statement: Statement,
    first: &Bytes,
    second: &Bytes,
) -> Result<Option<Body>, NoMemory>
    ensures { IfOk result (λ body. body ≡
        spec.stated_plainly (reading_in space.now) x.now (meant statement) (value.Pair first.now second.now)) }
{
    match statement {
        Statement::Restricted => {
            let filled = restriction(alloc, space, first, second)?;
            let x = x.copy(alloc)?;
            Ok(Some(Body::Sub(class_named(x), filled)))
        }
        Statement::Chain => {
            let first = iri_of(alloc, first, space)?;
            let second = iri_of(alloc, second, space)?;
            let x = x.copy(alloc)?;
            Ok(Some(Body::Chain(first, second, x)))
        }
        Statement::Related => {
            let role = iri_of(alloc, first, space)?;
            let other = iri_of(alloc, second, space)?;
            let x = x.copy(alloc)?;
            Ok(Some(Body::RoleAssertion(role, x, other)))
        }
        _ => Ok(None),
    }
}

/// What `true` says.
#[tactic(auto, unfolding(crate::specs::Values::stated_plainly))]
fn stated_by_truth(alloc: Global, x: &Iri, statement: Statement) -> Result<Option<Body>, NoMemory>
    ensures { (reading : Reading) → IfOk result
        (λ body. body ≡ spec.stated_plainly reading x.now (meant statement) (value.Bool true)) }
{
    match statement {
        Statement::HasCharacter(character) => {
            let x = x.copy(alloc)?;
            Ok(Some(character_body(character, x)))
        }
        _ => Ok(None),
    }
}

/// That the property has a character.
fn character_body(character: Character, role: Iri) -> Body
    ensures { result ≡ spec.character_body (character_meant character) role }
{
    match character {
        Character::Transitive => Body::Transitive(role),
        Character::Reflexive => Body::Reflexive(role),
        Character::Symmetric => Body::Symmetric(role),
        Character::Asymmetric => Body::Asymmetric(role),
        Character::Functional => Body::Functional(role),
        Character::InverseFunctional => Body::InverseFunctional(role),
    }
}
