//! Clauses, and what they are made of (OBO Flat File Format 1.4, the tags of each frame).
ghost use Rattle.std.specs.Prelude.{◌≡◌, IfOk};
ghost use Rattle.obo_clause.specs.Foreign.{is_foreign};
ghost use Rattle.obo_clause.specs.declared.clause.Value.TheVariants.{Def, Link, Literal, Pair, SubsetDef, Synonym, SynonymDef};

use rel_io::{Bytes, Dup, Items, NoMemory};
use std::alloc::Global;

/// A trailing qualifier, as `source="EX:1"` in a block behind a value.
#[derive(PartialEq, Eq, Drop)]
pub struct Qualifier {
    /// What stands before the `=`, as it is written.
    pub key: Bytes,
    /// What stands behind it, after escapes are read.
    pub value: Bytes,
}

/// A dbxref: a reference to an entry elsewhere, as `PMID:1 "a paper"`.
#[derive(PartialEq, Eq, Drop)]
pub struct Xref {
    /// The entry.
    pub id: Bytes,
    /// Its description, if it has one.
    pub label: Option<Bytes>,
}

/// How near the meaning of a synonym is to that of the name.
#[derive(Clone, Copy, Debug, PartialEq, Eq)]
pub enum Scope {
    /// The same, written `EXACT`.
    Exact,
    /// The synonym means more, written `BROAD`.
    Broad,
    /// The synonym means less, written `NARROW`.
    Narrow,
    /// Neither is said, written `RELATED`.
    Related,
}

/// The value of a clause, after escapes are read. Its variant goes by the tag, in the frame in which it stands.
#[derive(PartialEq, Eq, Drop)]
pub enum Value {
    /// A run of characters, as of `name`.
    Text(Bytes),
    /// One word, as of `is_a`.
    Id(Bytes),
    /// Two words, as of `relationship`.
    Pair(Bytes, Bytes),
    /// A truth value, as of `is_obsolete`.
    Bool(bool),
    /// A definition and its dbxrefs.
    Def {
        /// What stands between the quotes.
        text: Bytes,
        /// Where the definition comes from.
        xrefs: Items<Xref>,
    },
    /// A synonym, its scope, its type if it has one, and its dbxrefs.
    Synonym {
        /// The other name, from between the quotes.
        text: Bytes,
        /// The scope that is written, or `Related`.
        scope: Scope,
        /// The id of a synonym type of the header.
        kind: Option<Bytes>,
        /// Where the synonym comes from.
        xrefs: Items<Xref>,
    },
    /// The dbxref of an `xref` clause.
    XrefValue(Xref),
    /// A property and a text of a datatype, of `property_value`.
    Literal {
        /// The property.
        relation: Bytes,
        /// What stands between the quotes.
        text: Bytes,
        /// The datatype that is written, or `xsd:string`.
        datatype: Bytes,
    },
    /// A property and what it leads to, of `property_value`.
    Link {
        /// The property.
        relation: Bytes,
        /// The id that it leads to.
        target: Bytes,
    },
    /// A subset and its description.
    SubsetDef {
        /// The name by which Terms are put into the subset.
        id: Bytes,
        /// The description.
        text: Bytes,
    },
    /// A synonym type, its description, and the scope that it implies, if it has one.
    SynonymDef {
        /// The name by which synonyms have the type.
        id: Bytes,
        /// The description.
        text: Bytes,
        /// The scope that is written behind the description.
        scope: Option<Scope>,
    },
    /// The rest of the line as it stands, behind a tag that is foreign in the frame.
    Raw(Bytes),
}

/// What one line says of its frame.
#[derive(PartialEq, Eq, Drop)]
pub struct Clause {
    /// What stands before the colon.
    pub tag: Bytes,
    /// What stands behind it.
    pub value: Value,
    /// The trailing qualifiers, in the order of the line.
    pub qualifiers: Items<Qualifier>,
}

/// A value and the qualifiers behind it: all that stands behind the tag of a clause.
#[derive(PartialEq, Eq, Drop)]
pub struct QualifiedValue {
    /// The value, in the shape of the tag.
    pub value: Value,
    /// The trailing qualifiers, in the order of the line.
    pub qualifiers: Items<Qualifier>,
}

impl Clause {
    /// Whether the clause is foreign: its tag is none that its frame has, or an `id` that is not the first clause there.
    pub fn is_foreign(&self) -> bool
        ensures { result ≡ is_foreign self.now }
    {
        matches!(self.value, Value::Raw(_))
    }
}

impl Dup for Scope {
    fn copy(&self, _alloc: Global) -> Result<Scope, NoMemory> {
        Ok(*self)
    }
}

impl Dup for Qualifier {
    fn copy(&self, alloc: Global) -> Result<Qualifier, NoMemory> {
        let key = self.key.copy(alloc)?;
        let value = self.value.copy(alloc)?;
        Ok(Qualifier { key, value })
    }
}

impl Dup for Xref {
    fn copy(&self, alloc: Global) -> Result<Xref, NoMemory> {
        let id = self.id.copy(alloc)?;
        let label = self.label.copy(alloc)?;
        Ok(Xref { id, label })
    }
}

impl Dup for Clause {
    fn copy(&self, alloc: Global) -> Result<Clause, NoMemory> {
        let tag = self.tag.copy(alloc)?;
        let qualifiers = self.qualifiers.copy(alloc)?;
        let value = self.value.copy(alloc)?;
        Ok(Clause {
            tag,
            value,
            qualifiers,
        })
    }
}

impl Dup for Value {
    fn copy(&self, alloc: Global) -> Result<Value, NoMemory> {
        match self {
            Value::Text(text) => text.copy(alloc).map(Value::Text),
            Value::Id(id) => id.copy(alloc).map(Value::Id),
            Value::Pair(first, second) => copy_of_pair(alloc, first, second),
            Value::Bool(truth) => Ok(Value::Bool(*truth)),
            Value::Def { text, xrefs } => copy_of_def(alloc, text, xrefs),
            Value::Synonym {
                text,
                scope,
                kind,
                xrefs,
            } => copy_of_synonym(alloc, text, *scope, kind, xrefs),
            Value::XrefValue(xref) => xref.copy(alloc).map(Value::XrefValue),
            Value::Literal {
                relation,
                text,
                datatype,
            } => copy_of_literal(alloc, relation, text, datatype),
            Value::Link { relation, target } => copy_of_link(alloc, relation, target),
            Value::SubsetDef { id, text } => copy_of_subset_def(alloc, id, text),
            Value::SynonymDef { id, text, scope } => copy_of_synonym_def(alloc, id, text, *scope),
            Value::Raw(text) => text.copy(alloc).map(Value::Raw),
        }
    }
}

/// A pair equal to these parts.
fn copy_of_pair(alloc: Global, first: &Bytes, second: &Bytes) -> Result<Value, NoMemory>
    ensures { IfOk result (λ twin. twin ≡ Pair first.now second.now) }
{
    let first = first.copy(alloc)?;
    let second = second.copy(alloc)?;
    Ok(Value::Pair(first, second))
}

/// A definition equal to these parts.
fn copy_of_def(alloc: Global, text: &Bytes, xrefs: &Items<Xref>) -> Result<Value, NoMemory>
    ensures { IfOk result (λ twin. twin ≡ Def text.now xrefs.now) }
{
    let text = text.copy(alloc)?;
    let xrefs = xrefs.copy(alloc)?;
    Ok(Value::Def { text, xrefs })
}

/// A synonym equal to these parts.
fn copy_of_synonym(
    alloc: Global,
    text: &Bytes,
    scope: Scope,
    kind: &Option<Bytes>,
    xrefs: &Items<Xref>,
) -> Result<Value, NoMemory>
    ensures { IfOk result (λ twin. twin ≡ Synonym text.now scope kind.now xrefs.now) }
{
    let text = text.copy(alloc)?;
    let kind = kind.copy(alloc)?;
    let xrefs = xrefs.copy(alloc)?;
    Ok(Value::Synonym {
        text,
        scope,
        kind,
        xrefs,
    })
}

/// A literal equal to these parts.
fn copy_of_literal(
    alloc: Global,
    relation: &Bytes,
    text: &Bytes,
    datatype: &Bytes,
) -> Result<Value, NoMemory>
    ensures { IfOk result (λ twin. twin ≡ Literal relation.now text.now datatype.now) }
{
    let relation = relation.copy(alloc)?;
    let text = text.copy(alloc)?;
    let datatype = datatype.copy(alloc)?;
    Ok(Value::Literal {
        relation,
        text,
        datatype,
    })
}

/// A link equal to these parts.
fn copy_of_link(alloc: Global, relation: &Bytes, target: &Bytes) -> Result<Value, NoMemory>
    ensures { IfOk result (λ twin. twin ≡ Link relation.now target.now) }
{
    let relation = relation.copy(alloc)?;
    let target = target.copy(alloc)?;
    Ok(Value::Link { relation, target })
}

/// A subset definition equal to these parts.
fn copy_of_subset_def(alloc: Global, id: &Bytes, text: &Bytes) -> Result<Value, NoMemory>
    ensures { IfOk result (λ twin. twin ≡ SubsetDef id.now text.now) }
{
    let id = id.copy(alloc)?;
    let text = text.copy(alloc)?;
    Ok(Value::SubsetDef { id, text })
}

/// A synonym type equal to these parts.
fn copy_of_synonym_def(
    alloc: Global,
    id: &Bytes,
    text: &Bytes,
    scope: Option<Scope>,
) -> Result<Value, NoMemory>
    ensures { IfOk result (λ twin. twin ≡ SynonymDef id.now text.now scope) }
{
    let id = id.copy(alloc)?;
    let text = text.copy(alloc)?;
    Ok(Value::SynonymDef { id, text, scope })
}
