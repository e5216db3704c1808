//! Values by which statements say what axioms say, with their tags.
ghost use Rattle.std.specs.Prelude.{◌≡◌, IfOk, Some, true};
ghost use Rattle.std.specs.Option.{option_and_then, option_map};
ghost use Rattle.std.specs.Str.{bytes_eq};
ghost use Rattle.obo_clause.specs.declared.clause.Value.TheVariants as value;
ghost use Rattle.obo_notes.specs.Context.{where_true, writing_in};
ghost use Rattle.obo_statements.specs.Classes as spec_class;
ghost use Rattle.obo_statements.specs.Classes.{as_id, class_id};
ghost use Rattle.obo_statements.specs.Restrictions.{restriction_words};
ghost use Rattle.obo_statements.specs.Values as spec;
ghost use Rattle.obo_statements.specs.inner.Spelled.{ids_of, tagged};

use crate::ids::{class_id, class_iri};
use iri_map::id_of;
use obo_clause::Value;
use owl_axioms::ClassExpr;
use rel_io::{Bytes, Iri, NoMemory};
use std::alloc::Global;

/// A tag and the value behind it.
#[derive(Drop)]
pub struct Tagged {
    /// The tag.
    pub tag: Bytes,
    /// The value.
    pub value: Value,
}

/// Whether both are the same IRI.
pub fn same(one: &Iri, other: &Iri) -> bool
    ensures { result ≡ bytes_eq one.now other.now }
{
    one.as_slice() == other.as_slice()
}

/// The tag beside the value, where there is one.
pub fn with_value(
    alloc: Global,
    tag: &[u8],
    value: Option<Value>,
) -> Result<Option<Tagged>, NoMemory>
    ensures { IfOk result (λ said. said ≡ option_map (tagged tag.now) value) }
{
    let tag = Bytes::from_slice(alloc, tag)?;
    match value {
        Some(value) => Ok(Some(Tagged { tag, value })),
        None => Ok(None),
    }
}

/// The tag beside the id of a class, where it applies.
pub fn with_class(
    alloc: Global,
    space: &Bytes,
    tag: &[u8],
    applies: bool,
    class: &ClassExpr,
) -> Result<Option<Tagged>, NoMemory>
    ensures { IfOk result (λ said. said ≡
        option_map (tagged tag.now) (where_true applies (as_id (class_id (writing_in space.now) class.now)))) }
{
    if !applies {
        return Ok(None);
    }
    let value = class_id(alloc, space, class)?.map(Value::Id);
    with_value(alloc, tag, value)
}

/// The tag beside the id of a role, where it applies.
pub fn with_role(
    alloc: Global,
    space: &Bytes,
    tag: &[u8],
    applies: bool,
    role: &Iri,
) -> Result<Option<Tagged>, NoMemory>
    ensures { IfOk result (λ said. said ≡
        option_map (tagged tag.now) (where_true applies (as_id ((writing_in space.now).role_id role.now)))) }
{
    if !applies {
        return Ok(None);
    }
    let value = id_of(alloc, role, space)?.map(Value::Id);
    with_value(alloc, tag, value)
}

/// The tag beside `true`, where it applies.
pub fn with_truth(alloc: Global, tag: &[u8], applies: bool) -> Result<Option<Tagged>, NoMemory>
    ensures { IfOk result (λ said. said ≡
        option_map (tagged tag.now) (where_true applies (Some (value.Bool true)))) }
{
    with_value(alloc, tag, applies.then_some(Value::Bool(true)))
}

/// The tag beside the id of a role and that of another entity, where it applies.
pub fn with_pair(
    alloc: Global,
    space: &Bytes,
    tag: &[u8],
    applies: bool,
    role: &Iri,
    other: &Iri,
) -> Result<Option<Tagged>, NoMemory>
    ensures { IfOk result (λ said. said ≡
        option_map (tagged tag.now) (where_true applies (ids_of (writing_in space.now) role.now other.now))) }
{
    if !applies {
        return Ok(None);
    }
    let Some(role) = id_of(alloc, role, space)? else {
        return Ok(None);
    };
    let Some(other) = id_of(alloc, other, space)? else {
        return Ok(None);
    };
    with_value(alloc, tag, Some(Value::Pair(role, other)))
}

/// The id of the other role of two.
pub fn other_role_value(
    alloc: Global,
    space: &Bytes,
    x: &Iri,
    one: &Iri,
    two: &Iri,
) -> Result<Option<Value>, NoMemory>
    ensures { IfOk result (λ said. said ≡
        option_and_then (λ other. as_id ((writing_in space.now).role_id other)) (spec.other_of x.now one.now two.now)) }
{
    let other = if same(x, one) {
        two
    } else if same(x, two) {
        one
    } else {
        return Ok(None);
    };
    let id = id_of(alloc, other, space)?;
    Ok(id.map(Value::Id))
}

/// The IRI of the other class of two.
fn other_class<'a>(x: &Iri, one: &'a ClassExpr, two: &'a ClassExpr) -> Option<&'a ClassExpr>
    ensures { option_and_then (λ other. spec_class.class_iri other.now) result ≡ spec.other_class x.now one.now two.now }
{
    let Some(first) = class_iri(one) else {
        return None;
    };
    let Some(second) = class_iri(two) else {
        return None;
    };
    if x.as_slice() == first {
        Some(two)
    } else if x.as_slice() == second {
        Some(one)
    } else {
        None
    }
}

/// The id of the other class of two.
pub fn other_class_value(
    alloc: Global,
    space: &Bytes,
    x: &Iri,
    one: &ClassExpr,
    two: &ClassExpr,
) -> Result<Option<Value>, NoMemory>
    ensures { IfOk result (λ said. said ≡
        option_and_then (λ other. as_id ((writing_in space.now).id other)) (spec.other_class x.now one.now two.now)) }
{
    match other_class(x, one, two) {
        Some(other) => Ok(class_id(alloc, space, other)?.map(Value::Id)),
        None => Ok(None),
    }
}

/// The two words of what has a filler of a class, where the expression is that.
#[tactic(auto, unfolding(crate::specs::Restrictions::restriction_words))]
pub fn restriction_value(
    alloc: Global,
    space: &Bytes,
    one: &ClassExpr,
) -> Result<Option<Value>, NoMemory>
    ensures { IfOk result (λ said. said ≡ restriction_words (writing_in space.now) one.now) }
{
    match one {
        ClassExpr::Some(role, part) => words_value(alloc, space, role, part.get()),
        _ => Ok(None),
    }
}

/// The ids of a role and of a class.
fn words_value(
    alloc: Global,
    space: &Bytes,
    role: &Iri,
    part: &ClassExpr,
) -> Result<Option<Value>, NoMemory>
    ensures { IfOk result (λ said. said ≡ option_and_then (λ r. option_map (λ c. value.Pair r c) (class_id (writing_in space.now) part.now)) ((writing_in space.now).role_id role.now)) }
{
    let Some(role) = id_of(alloc, role, space)? else {
        return Ok(None);
    };
    let Some(class) = class_id(alloc, space, part)? else {
        return Ok(None);
    };
    Ok(Some(Value::Pair(role, class)))
}
