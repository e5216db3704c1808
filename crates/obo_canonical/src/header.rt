//! The header of a normal form.
ghost use Rattle.std.specs.Prelude.{◌≡◌, ◌++◌, IfOk, OnOk, map};
ghost use Rattle.std.specs.Option.{option_copied, option_to_list};
ghost use Rattle.iri_map.specs.Ontology.{normalised};
ghost use Rattle.obo_frames.specs.Framed.{unlined};
ghost use Rattle.obo_mapping.specs.Documents as documents;
ghost use Rattle.obo_canonical.specs.inner.Header as spec;

use crate::kept::has_tag;
use crate::settled::is_header;
use iri_map::{ontology_iri, ontology_value};
use obo_clause::{Clause, Value};
use obo_frames::Placed;
use obo_tags::FrameKind;
use rel_io::{Bytes, Items, NoMemory};
use std::alloc::Global;

/// The `format-version`, and an `ontology` clause for each name that the clauses give, normalised. No line is given to them.
pub fn header(alloc: Global, placed: &[Placed]) -> Result<Vec<Placed>, NoMemory>
    ensures { IfOk result (λ made. map unlined made.items ≡
        documents.header_with (documents.names_in (map unlined placed.now))) }
{
    let format = format_version(alloc)?;
    let mut made = Vec::new(alloc);
    made.push(format)?;
    for one in placed {
        push_name(alloc, one, &mut made)?;
    }
    Ok(made)
}

/// The `format-version`.
fn format_version(alloc: Global) -> Result<Placed, NoMemory>
    ensures { IfOk result (λ one. unlined one ≡ spec.format_clause) }
{
    let version = Bytes::from_slice(alloc, b"1.4")?;
    header_clause(alloc, b"format-version", Value::Text(version))
}

/// Appends the `ontology` clause of the name that a clause gives.
fn push_name(alloc: Global, one: &Placed, made: &mut Vec<Placed>) -> Result<(), NoMemory>
    ensures { OnOk result (map unlined made.new.items ≡
        map unlined made.old.items ++ map spec.name_clause (option_to_list (spec.name_given (unlined one.now)))) }
{
    if let Some(word) = name_in(one) {
        let name = normalised(alloc, word)?;
        let clause = header_clause(alloc, b"ontology", Value::Id(name))?;
        made.push(clause)?;
    }
    Ok(())
}

/// The name that a clause gives the ontology, as it is written.
fn name_in(one: &Placed) -> Option<&Bytes>
    ensures { option_copied result ≡ spec.name_written (unlined one.now) }
{
    if !is_header(one) || !has_tag(b"ontology", one) {
        return None;
    }
    match &one.clause.value {
        Value::Id(word) => Some(word),
        _ => None,
    }
}

/// The normalised value of a name.
fn normalised(alloc: Global, value: &Bytes) -> Result<Bytes, NoMemory>
    ensures { IfOk result (λ name. name ≡ normalised value.now) }
{
    let iri = ontology_iri(alloc, value)?;
    ontology_value(alloc, &iri)
}

/// A clause of the header.
fn header_clause(alloc: Global, tag: &[u8], value: Value) -> Result<Placed, NoMemory>
    ensures { IfOk result (λ one. unlined one ≡ spec.header_clause tag.now value) }
{
    match Bytes::from_slice(alloc, tag) {
        Ok(tag) => Ok(Placed {
            frame: FrameKind::Header,
            id: Bytes::from_vec(Vec::new(alloc)),
            line: 0,
            clause: Clause {
                tag,
                value,
                qualifiers: Items::from_vec(Vec::new(alloc)),
            },
        }),
        Err(NoMemory) => {
            drop(value);
            Err(NoMemory)
        }
    }
}
