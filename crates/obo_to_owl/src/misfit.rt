//! Clauses that have no axiom: each rule is a test by itself.
ghost use Rattle.std.specs.Prelude.{◌≡◌, IfOk};
ghost use Rattle.std.specs.Option.{option_copied, option_map};
ghost use Rattle.iri_map.specs.Ontology.{normalised};
ghost use Rattle.obo_frames.specs.Framed.{unlined};
ghost use Rattle.obo_mapping.specs.Documents as spec;
ghost use Rattle.obo_statements.specs.Groups.{group_meant, group_tag};
ghost use Rattle.obo_to_owl.specs.inner.Known.{is_of_group};
ghost use Rattle.obo_to_owl.specs.inner.Rules.{is_of_relation, is_other_than};

use iri_map::{ontology_iri, ontology_value};
use obo_clause::Value;
use obo_frames::Placed;
use obo_notes::is_reserved_key;
use obo_statements::{Group, is_statement};
use obo_tags::FrameKind;
use rel_io::{Bytes, NoMemory};
use std::alloc::Global;

/// Whether the clause stands in the header.
pub fn is_header(one: &Placed) -> bool
    ensures { result ≡ spec.is_header (unlined one.now) }
{
    matches!(one.frame, FrameKind::Header)
}

/// Whether the clause has the tag.
pub fn has_tag(tag: &[u8], one: &Placed) -> bool
    ensures { result ≡ spec.has_tag tag.now (unlined one.now) }
{
    one.clause.tag.as_slice() == tag
}

/// Whether the value is this truth value.
pub fn is_truth(truth: bool, value: &Value) -> bool
    ensures { result ≡ spec.is_truth_value truth value.now }
{
    match value {
        Value::Bool(true) => truth,
        Value::Bool(false) => !truth,
        _ => false,
    }
}

/// Whether the value is that of a foreign clause.
pub fn is_raw(value: &Value) -> bool
    ensures { result ≡ spec.is_raw value.now }
{
    matches!(value, Value::Raw(_))
}

/// Whether some qualifier has a meaning of its own.
fn has_reserved_key(one: &Placed) -> bool
    ensures { result ≡ spec.has_reserved_key (unlined one.now) }
{
    one.clause
        .qualifiers
        .as_slice()
        .iter()
        .any(|q| is_reserved_key(q.key.as_slice()))
}

/// Whether the clause names a file that is merged.
fn is_import(one: &Placed) -> bool
    ensures { result ≡ spec.is_import (unlined one.now) }
{
    is_header(one) && has_tag(b"import", one) && !is_raw(&one.clause.value)
}

/// Whether the clause is foreign, or has a qualifier with a meaning of its own that counts.
pub fn is_misfit(one: &Placed) -> bool
    ensures { result ≡ spec.is_misfit (unlined one.now) }
{
    is_raw(&one.clause.value)
        || (has_reserved_key(one) && !(is_import(one) || is_truth(false, &one.clause.value)))
}

/// The group in which the clause stands.
pub fn group_of(one: &Placed) -> Option<Group>
    ensures { option_map group_meant result ≡ spec.group_of (unlined one.now) }
{
    if !matches!(one.frame, FrameKind::Term) || is_raw(&one.clause.value) {
        None
    } else if has_tag(b"intersection_of", one) {
        Some(Group::Intersection)
    } else if has_tag(b"union_of", one) {
        Some(Group::Union)
    } else {
        None
    }
}

/// The tag of a group.
fn group_tag(group: Group) -> &'static [u8]
    ensures { result.now ≡ group_tag (group_meant group) }
{
    match group {
        Group::Intersection => b"intersection_of",
        Group::Union => b"union_of",
    }
}

/// Whether the clause is one of a group of this kind.
pub fn is_of_group(group: Group, one: &Placed) -> bool
    ensures { result ≡ is_of_group (group_meant group) (unlined one.now) }
{
    matches!(one.frame, FrameKind::Term)
        && !is_raw(&one.clause.value)
        && has_tag(group_tag(group), one)
}

/// Whether the clause says of an annotation property what can only be said of a relation.
pub fn is_of_relation(is_metadata: bool, one: &Placed) -> bool
    ensures { result ≡ is_of_relation is_metadata (unlined one.now) }
{
    matches!(one.frame, FrameKind::Typedef)
        && is_metadata
        && is_statement(FrameKind::Typedef, one.clause.tag.as_slice())
        && !is_truth(false, &one.clause.value)
}

/// Whether the clause gives the ontology another name than this one, where it has one.
pub fn is_other_name(alloc: Global, name: Option<&Bytes>, one: &Placed) -> Result<bool, NoMemory>
    ensures { IfOk result (λ is. is ≡ is_other_than (option_copied name.entry) (unlined one.now)) }
{
    if !is_header(one) || !has_tag(b"ontology", one) {
        return Ok(false);
    }
    match &one.clause.value {
        Value::Id(word) => {
            let given = normalised(alloc, word)?;
            Ok(!name.is_some_and(|name| name == &given))
        }
        _ => Ok(false),
    }
}

/// The normalised value of a name.
fn normalised(alloc: Global, value: &Bytes) -> Result<Bytes, NoMemory>
    ensures { IfOk result (λ name. name ≡ normalised value.now) }
{
    let iri = ontology_iri(alloc, value)?;
    ontology_value(alloc, &iri)
}
