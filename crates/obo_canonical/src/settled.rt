//! Clauses as the normal form keeps them: ids by which their IRIs are written, and parts in printed order.
ghost use Rattle.std.specs.Prelude.{◌≡◌, IfOk, map};
ghost use Rattle.std.specs.Option.{option_map};
ghost use Rattle.clause_printer.specs.Printing.{qualifier_text, xref_text};
ghost use Rattle.text_sets.specs.Sets.{AreTold};
ghost use Rattle.text_sets.specs.Sorted.{sorted_by};
ghost use Rattle.obo_clause.specs.Spelled.{CanBeSpelled};
ghost use Rattle.obo_clause.specs.declared.clause.Value.TheVariants as value;
ghost use Rattle.obo_frames.specs.Framed.{unlined};
ghost use Rattle.obo_mapping.specs.Documents as documents;
ghost use Rattle.obo_canonical.specs.inner.Settled as spec;

use iri_map::{id_of, iri_of};
use obo_clause::{Clause, Qualifier, Scope, Value, Xref};
use obo_frames::Placed;
use obo_notes::{datatype_iri, datatype_word, is_reserved_key, key_of, key_property, sorted};
use obo_tags::FrameKind;
use rel_io::{Bytes, Dup, Items, NoMemory};
use std::alloc::Global;

/// The clause as it is kept, with the id of its frame settled. No line is given to it.
pub fn as_kept(alloc: Global, space: &Bytes, one: &Placed) -> Result<Placed, NoMemory>
    requires { CanBeSpelled one.now.clause }
    ensures { IfOk result (λ made. unlined made ≡ spec.kept_in space.now (unlined one.now)) }
{
    let id = frame_id(alloc, space, one)?;
    let clause = settled_clause(alloc, space, &one.clause)?;
    Ok(Placed {
        frame: one.frame,
        id,
        line: 0,
        clause,
    })
}

/// Whether the clause stands in the header.
pub fn is_header(one: &Placed) -> bool
    ensures { result ≡ documents.is_header (unlined one.now) }
{
    matches!(one.frame, FrameKind::Header)
}

/// The id of the frame of a clause.
fn frame_id(alloc: Global, space: &Bytes, one: &Placed) -> Result<Bytes, NoMemory>
    ensures { IfOk result (λ id. id ≡ spec.frame_id_in space.now (unlined one.now)) }
{
    if is_header(one) {
        one.id.copy(alloc)
    } else {
        settled_id(alloc, space, &one.id)
    }
}

/// The id by which the IRI of an id is written.
fn settled_id(alloc: Global, space: &Bytes, id: &Bytes) -> Result<Bytes, NoMemory>
    ensures { IfOk result (λ made. made ≡ spec.id_in space.now id.now) }
{
    let iri = iri_of(alloc, id, space)?;
    match id_of(alloc, &iri, space)? {
        Some(made) => Ok(made),
        None => id.copy(alloc),
    }
}

/// The clause with its parts settled; a foreign one stays as it is.
fn settled_clause(alloc: Global, space: &Bytes, clause: &Clause) -> Result<Clause, NoMemory>
    requires { CanBeSpelled clause.now }
    ensures { IfOk result (λ made. made ≡ spec.clause_in space.now clause.now) }
{
    if clause.is_foreign() {
        return clause.copy(alloc);
    }
    let tag = clause.tag.copy(alloc)?;
    let value = settled_value(alloc, space, is_literal_tag(tag.as_slice()), &clause.value)?;
    let qualifiers = settled_qualifiers(alloc, &clause.qualifiers)?;
    Ok(Clause {
        tag,
        value,
        qualifiers,
    })
}

/// Whether the word behind the tag stays as it is.
fn is_literal_tag(tag: &[u8]) -> bool
    ensures { result ≡ spec.is_literal_tag tag.now }
{
    tag == b"alt_id".as_slice() || tag == b"import".as_slice()
}

/// The value with its ids settled and its dbxrefs in printed order.
fn settled_value(
    alloc: Global,
    space: &Bytes,
    is_literal: bool,
    value: &Value,
) -> Result<Value, NoMemory>
    requires { spec.XrefsAreTold value.now }
    ensures { IfOk result (λ made. made ≡ spec.value_in space.now is_literal value.now) }
{
    match value {
        Value::Text(text) => text.copy(alloc).map(Value::Text),
        Value::Id(word) => settled_word(alloc, space, is_literal, word),
        Value::Pair(first, second) => settled_pair(alloc, space, first, second),
        Value::Bool(truth) => Ok(Value::Bool(*truth)),
        Value::Def { text, xrefs } => settled_def(alloc, text, xrefs),
        Value::Synonym {
            text,
            scope,
            kind,
            xrefs,
        } => settled_synonym(alloc, space, text, *scope, kind, xrefs),
        Value::XrefValue(xref) => xref.copy(alloc).map(Value::XrefValue),
        Value::Literal {
            relation,
            text,
            datatype,
        } => settled_literal(alloc, space, relation, text, datatype),
        Value::Link { relation, target } => settled_link(alloc, space, relation, target),
        Value::SubsetDef { id, text } => settled_subset(alloc, space, id, text),
        Value::SynonymDef { id, text, scope } => settled_type(alloc, space, id, text, *scope),
        Value::Raw(text) => text.copy(alloc).map(Value::Raw),
    }
}

/// One word, which is an id or stays as it is.
fn settled_word(
    alloc: Global,
    space: &Bytes,
    is_literal: bool,
    word: &Bytes,
) -> Result<Value, NoMemory>
    ensures { IfOk result (λ made. made ≡ spec.value_in space.now is_literal (value.Id word.now)) }
{
    if is_literal {
        word.copy(alloc).map(Value::Id)
    } else {
        settled_id(alloc, space, word).map(Value::Id)
    }
}

/// Two ids.
fn settled_pair(
    alloc: Global,
    space: &Bytes,
    first: &Bytes,
    second: &Bytes,
) -> Result<Value, NoMemory>
    ensures { IfOk result (λ made. made ≡ value.Pair (spec.id_in space.now first.now) (spec.id_in space.now second.now)) }
{
    let first = settled_id(alloc, space, first)?;
    let second = settled_id(alloc, space, second)?;
    Ok(Value::Pair(first, second))
}

/// A definition.
fn settled_def(alloc: Global, text: &Bytes, xrefs: &Items<Xref>) -> Result<Value, NoMemory>
    requires { AreTold xref_text xrefs.now }
    ensures { IfOk result (λ made. made ≡ value.Def text.now (sorted_by xref_text xrefs.now)) }
{
    let text = text.copy(alloc)?;
    let xrefs = sorted_xrefs(alloc, xrefs)?;
    Ok(Value::Def { text, xrefs })
}

/// A synonym.
fn settled_synonym(
    alloc: Global,
    space: &Bytes,
    text: &Bytes,
    scope: Scope,
    kind: &Option<Bytes>,
    xrefs: &Items<Xref>,
) -> Result<Value, NoMemory>
    requires { AreTold xref_text xrefs.now }
    ensures { IfOk result (λ made. made ≡
        value.Synonym text.now scope (option_map (spec.id_in space.now) kind.now) (sorted_by xref_text xrefs.now)) }
{
    let text = text.copy(alloc)?;
    let kind = settled_kind(alloc, space, kind)?;
    let xrefs = sorted_xrefs(alloc, xrefs)?;
    Ok(Value::Synonym {
        text,
        scope,
        kind,
        xrefs,
    })
}

/// A synonym type, if there is one.
fn settled_kind(
    alloc: Global,
    space: &Bytes,
    kind: &Option<Bytes>,
) -> Result<Option<Bytes>, NoMemory>
    ensures { IfOk result (λ made. made ≡ option_map (spec.id_in space.now) kind.now) }
{
    match kind {
        Some(id) => settled_id(alloc, space, id).map(Some),
        None => Ok(None),
    }
}

/// Dbxrefs in printed order, each once.
fn sorted_xrefs(alloc: Global, xrefs: &Items<Xref>) -> Result<Items<Xref>, NoMemory>
    requires { AreTold xref_text xrefs.now }
    ensures { IfOk result (λ made. made ≡ sorted_by xref_text xrefs.now) }
{
    let copied = xrefs.copy(alloc)?;
    sorted(alloc, copied.into_vec())
}

/// A property and a text of a datatype.
fn settled_literal(
    alloc: Global,
    space: &Bytes,
    relation: &Bytes,
    text: &Bytes,
    datatype: &Bytes,
) -> Result<Value, NoMemory>
    ensures { IfOk result (λ made. made ≡
        value.Literal (spec.id_in space.now relation.now) text.now (spec.datatype_in space.now datatype.now)) }
{
    let relation = settled_id(alloc, space, relation)?;
    let text = text.copy(alloc)?;
    let datatype = settled_datatype(alloc, space, datatype)?;
    Ok(Value::Literal {
        relation,
        text,
        datatype,
    })
}

/// The word for the datatype of a word.
fn settled_datatype(alloc: Global, space: &Bytes, word: &Bytes) -> Result<Bytes, NoMemory>
    ensures { IfOk result (λ made. made ≡ spec.datatype_in space.now word.now) }
{
    let iri = datatype_iri(alloc, space, word)?;
    match datatype_word(alloc, space, &iri)? {
        Some(made) => Ok(made),
        None => word.copy(alloc),
    }
}

/// A property and what it leads to.
fn settled_link(
    alloc: Global,
    space: &Bytes,
    relation: &Bytes,
    target: &Bytes,
) -> Result<Value, NoMemory>
    ensures { IfOk result (λ made. made ≡ value.Link (spec.id_in space.now relation.now) (spec.id_in space.now target.now)) }
{
    let relation = settled_id(alloc, space, relation)?;
    let target = settled_id(alloc, space, target)?;
    Ok(Value::Link { relation, target })
}

/// A subset and its description.
fn settled_subset(alloc: Global, space: &Bytes, id: &Bytes, text: &Bytes) -> Result<Value, NoMemory>
    ensures { IfOk result (λ made. made ≡ value.SubsetDef (spec.id_in space.now id.now) text.now) }
{
    let id = settled_id(alloc, space, id)?;
    let text = text.copy(alloc)?;
    Ok(Value::SubsetDef { id, text })
}

/// A synonym type and its description.
fn settled_type(
    alloc: Global,
    space: &Bytes,
    id: &Bytes,
    text: &Bytes,
    scope: Option<Scope>,
) -> Result<Value, NoMemory>
    ensures { IfOk result (λ made. made ≡ value.SynonymDef (spec.id_in space.now id.now) text.now scope) }
{
    let id = settled_id(alloc, space, id)?;
    let text = text.copy(alloc)?;
    Ok(Value::SynonymDef { id, text, scope })
}

/// Qualifiers with their keys settled, in printed order, each once.
fn settled_qualifiers(
    alloc: Global,
    qualifiers: &Items<Qualifier>,
) -> Result<Items<Qualifier>, NoMemory>
    requires { AreTold qualifier_text (map documents.settled_qualifier qualifiers.now) }
    ensures { IfOk result (λ made. made ≡ spec.qualifiers_in qualifiers.now) }
{
    let settled = each_settled(alloc, qualifiers.as_slice())?;
    sorted(alloc, settled)
}

/// Qualifiers with their keys settled.
fn each_settled(alloc: Global, qualifiers: &[Qualifier]) -> Result<Vec<Qualifier>, NoMemory>
    ensures { IfOk result (λ made. made.items ≡ map documents.settled_qualifier qualifiers.now) }
{
    let mut settled = Vec::with_capacity(alloc, qualifiers.len())?;
    for one in qualifiers {
        let made = settled_qualifier(alloc, one)?;
        settled.push(made)?;
    }
    Ok(settled)
}

/// A qualifier with its key settled; one that has a meaning of its own stays as it is.
fn settled_qualifier(alloc: Global, qualifier: &Qualifier) -> Result<Qualifier, NoMemory>
    ensures { IfOk result (λ made. made ≡ documents.settled_qualifier qualifier.now) }
{
    if is_reserved_key(qualifier.key.as_slice()) {
        return qualifier.copy(alloc);
    }
    let key = settled_key(alloc, &qualifier.key)?;
    let value = qualifier.value.copy(alloc)?;
    Ok(Qualifier { key, value })
}

/// The key for the property of a key.
fn settled_key(alloc: Global, key: &Bytes) -> Result<Bytes, NoMemory>
    ensures { IfOk result (λ made. made ≡ spec.key_in key.now) }
{
    let property = key_property(alloc, key.as_slice())?;
    match key_of(alloc, &property)? {
        Some(made) => Ok(made),
        None => key.copy(alloc),
    }
}
