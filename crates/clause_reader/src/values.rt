//! Values, each in the shape of its tag, with the qualifiers of the ending behind them.
ghost use Rattle.std.specs.Prelude.{◌≡◌, ◌≢◌, ℕ, List, IfOk, MatchResult, Ok, Err};
ghost use Rattle.std.specs.Option.{option_copied};
ghost use Rattle.std.specs.Result.{result_map_both};
ghost use Rattle.obo_clause.specs.Marks as spec;
ghost use Rattle.obo_clause.specs.Reading.{end_at};
ghost use Rattle.clause_reader.specs.inner.Results.{Gives};
ghost use Rattle.obo_tags.specs.declared.kind.ValueShape.TheVariants.{Raw};
ghost use Rattle.obo_clause.specs.ReadingLines as read;

use crate::blocks::{FreeRun, end_at, free_run};
use crate::bytes::{behind_blank_bytes, is_word, without_last_blanks};
use crate::lists::list_at;
use crate::marks::{behind_blanks, marks_of, text_if_any, text_of, trim_end};
use crate::runs::{behind_sign, quoted_at, want_word, word_at};
use crate::scopes::{may_have_word, scoped_at, type_scope_at};
use obo_clause::{LineFault, MarkedByte, QualifiedValue, Qualifier, SyntaxKind, Value, Xref};
use obo_tags::ValueShape;
use rel_io::{Bytes, Items, NoMemory};
use std::alloc::Global;

/// The datatype of a text that has none.
const TEXT_DATATYPE: &[u8] = b"xsd:string";

/// What stands behind the colon, by the shape of the value there.
pub fn read_shape(
    alloc: Global,
    shape: ValueShape,
    bytes: &[u8],
) -> Result<QualifiedValue, LineFault>
    ensures { Gives (read.read_shape shape bytes.now) result }
{
    match shape {
        ValueShape::Raw => read_raw(alloc, bytes),
        _ => read_marked(alloc, shape, marks_of(alloc, bytes)?.as_slice()),
    }
}

/// What is made of the marks behind the colon, by the shape of the value there.
fn read_marked(
    alloc: Global,
    shape: ValueShape,
    marks: &[MarkedByte],
) -> Result<QualifiedValue, LineFault>
    requires { shape ≢ Raw }
    ensures { (bytes : List ℕ) → marks.now ≡ spec.marks_of bytes → Gives (read.read_shape shape bytes) result }
{
    match shape {
        ValueShape::Text => read_text(alloc, marks),
        ValueShape::Id => read_id(alloc, marks),
        ValueShape::Pair => read_pair(alloc, marks),
        ValueShape::IdOrPair => read_id_or_pair(alloc, marks),
        ValueShape::Bool => read_bool(alloc, marks),
        ValueShape::Def => read_definition(alloc, marks),
        ValueShape::Synonym => read_synonym(alloc, marks),
        ValueShape::XrefShape => read_xref(alloc, marks),
        ValueShape::Property => read_property(alloc, marks),
        ValueShape::SubsetDef => read_subset(alloc, marks),
        ValueShape::SynonymDef => read_synonym_type(alloc, marks),
        ValueShape::Raw => unreachable!(),
    }
}

/// The rest of a line as it stands, without outer blanks.
fn read_raw(alloc: Global, bytes: &[u8]) -> Result<QualifiedValue, LineFault>
    ensures { Gives (read.read_raw bytes.now) result }
{
    let text = without_last_blanks(behind_blank_bytes(bytes));
    let text = Bytes::from_slice(alloc, text)?;
    Ok(QualifiedValue {
        value: Value::Raw(text),
        qualifiers: Items::from_vec(Vec::new(alloc)),
    })
}

/// A text, and the qualifiers of the ending behind it.
fn text_to_end(
    alloc: Global,
    text: &[MarkedByte],
    rest: &[MarkedByte],
) -> Result<(Bytes, Items<Qualifier>), LineFault>
    ensures text { IfOk result (λ one. one.0 ≡ spec.read_as text.now) }
    ensures ending { Gives (end_at rest.now) (result_map_both (λ one. one.1) (λ fault. fault) result) }
{
    let text = text_of(alloc, text)?;
    let qualifiers = end_at(alloc, rest)?;
    Ok((text, qualifiers))
}

/// Two texts, and the qualifiers of the ending behind them.
fn texts_to_end(
    alloc: Global,
    first: &[MarkedByte],
    second: &[MarkedByte],
    rest: &[MarkedByte],
) -> Result<(Bytes, Bytes, Items<Qualifier>), LineFault>
    ensures first { IfOk result (λ one. one.0 ≡ spec.read_as first.now) }
    ensures second { IfOk result (λ one. one.1 ≡ spec.read_as second.now) }
    ensures ending { Gives (end_at rest.now) (result_map_both (λ one. one.2) (λ fault. fault) result) }
{
    let first = text_of(alloc, first)?;
    let (second, qualifiers) = text_to_end(alloc, second, rest)?;
    Ok((first, second, qualifiers))
}

/// A run of characters.
#[tactic(auto, unfolding(obo_clause::specs::ReadingLines::read_text))]
fn read_text(alloc: Global, marks: &[MarkedByte]) -> Result<QualifiedValue, LineFault>
    ensures { Gives (read.read_text marks.now) result }
{
    let FreeRun {
        run,
        qualifiers,
        ..
    } = free_run(alloc, false, behind_blanks(marks))?;
    match qualifiers {
        None => Err(LineFault::Syntax(SyntaxKind::Trailing)),
        Some(qualifiers) => match text_of(alloc, trim_end(run)) {
            Ok(text) => Ok(QualifiedValue {
                value: Value::Text(text),
                qualifiers,
            }),
            Err(NoMemory) => {
                drop(qualifiers);
                Err(LineFault::NoMemory)
            }
        },
    }
}

/// One word.
#[tactic(auto, unfolding(obo_clause::specs::ReadingLines::read_id))]
fn read_id(alloc: Global, marks: &[MarkedByte]) -> Result<QualifiedValue, LineFault>
    ensures { Gives (read.read_id marks.now) result }
{
    let (word, rest) = want_word(marks)?;
    let (word, qualifiers) = text_to_end(alloc, word, rest)?;
    Ok(QualifiedValue {
        value: Value::Id(word),
        qualifiers,
    })
}

/// Two words.
#[tactic(auto, unfolding(obo_clause::specs::ReadingLines::read_pair))]
fn read_pair(alloc: Global, marks: &[MarkedByte]) -> Result<QualifiedValue, LineFault>
    ensures { Gives (read.read_pair marks.now) result }
{
    let (first, rest) = want_word(marks)?;
    let (second, rest) = want_word(rest)?;
    let (first, second, qualifiers) = texts_to_end(alloc, first, second, rest)?;
    Ok(QualifiedValue {
        value: Value::Pair(first, second),
        qualifiers,
    })
}

/// One word, or two.
#[tactic(auto, unfolding(obo_clause::specs::ReadingLines::read_id, obo_clause::specs::ReadingLines::read_pair, obo_clause::specs::ReadingLines::read_id_or_pair))]
fn read_id_or_pair(alloc: Global, marks: &[MarkedByte]) -> Result<QualifiedValue, LineFault>
    ensures { Gives (read.read_id_or_pair marks.now) result }
{
    let (_, rest) = want_word(marks)?;
    match word_at(rest) {
        None => read_id(alloc, marks),
        Some(_) => read_pair(alloc, marks),
    }
}

/// The truth value that a word is for.
fn truth_of(word: &Bytes) -> Result<bool, SyntaxKind>
    ensures { MatchResult result
        (λ truth. read.want_truth word.now ≡ Ok truth)
        (λ one. read.want_truth word.now ≡ Err one) }
{
    let word = word.as_slice();
    if is_word(word, b"true") {
        return Ok(true);
    }
    if is_word(word, b"false") {
        return Ok(false);
    }
    Err(SyntaxKind::BadBool)
}

/// A truth value.
#[tactic(auto, unfolding(obo_clause::specs::ReadingLines::read_bool))]
fn read_bool(alloc: Global, marks: &[MarkedByte]) -> Result<QualifiedValue, LineFault>
    ensures { Gives (read.read_bool marks.now) result }
{
    let (word, rest) = want_word(marks)?;
    let truth = truth_of(&text_of(alloc, word)?)?;
    let qualifiers = end_at(alloc, rest)?;
    Ok(QualifiedValue {
        value: Value::Bool(truth),
        qualifiers,
    })
}

/// A quoted text and its dbxrefs.
#[tactic(auto, unfolding(obo_clause::specs::ReadingLines::read_definition))]
fn read_definition(alloc: Global, marks: &[MarkedByte]) -> Result<QualifiedValue, LineFault>
    ensures { Gives (read.read_definition marks.now) result }
{
    let (text, rest) = quoted_at(marks)?;
    let (xrefs, rest) = list_at(alloc, rest)?;
    match text_to_end(alloc, text, rest) {
        Ok((text, qualifiers)) => Ok(QualifiedValue {
            value: Value::Def { text, xrefs },
            qualifiers,
        }),
        Err(fault) => {
            drop(xrefs);
            Err(fault)
        }
    }
}

/// A quoted text, its scope, its type and its dbxrefs.
#[tactic(auto, unfolding(obo_clause::specs::ReadingLines::read_synonym))]
fn read_synonym(alloc: Global, marks: &[MarkedByte]) -> Result<QualifiedValue, LineFault>
    ensures { Gives (read.read_synonym marks.now) result }
{
    let (text, rest) = quoted_at(marks)?;
    let scoped = scoped_at(alloc, rest)?;
    let (xrefs, rest) = list_at(alloc, scoped.rest)?;
    let kind = text_if_any(alloc, scoped.kind)?;
    match text_to_end(alloc, text, rest) {
        Ok((text, qualifiers)) => Ok(QualifiedValue {
            value: Value::Synonym {
                text,
                scope: scoped.scope,
                kind,
                xrefs,
            },
            qualifiers,
        }),
        Err(fault) => {
            drop(xrefs);
            drop(kind);
            Err(fault)
        }
    }
}

/// A run of characters, and its label.
#[tactic(auto, unfolding(obo_clause::specs::ReadingLines::read_xref))]
fn read_xref(alloc: Global, marks: &[MarkedByte]) -> Result<QualifiedValue, LineFault>
    ensures { Gives (read.read_xref marks.now) result }
{
    let FreeRun {
        run,
        rest,
        qualifiers,
    } = free_run(alloc, true, behind_blanks(marks))?;
    if run.is_empty() {
        drop(qualifiers);
        return Err(LineFault::Syntax(SyntaxKind::NoValue));
    }
    let id = trim_end(run);
    match qualifiers {
        None => labelled(alloc, id, rest),
        Some(qualifiers) => match text_of(alloc, id) {
            Ok(id) => Ok(QualifiedValue {
                value: Value::XrefValue(Xref { id, label: None }),
                qualifiers,
            }),
            Err(NoMemory) => {
                drop(qualifiers);
                Err(LineFault::NoMemory)
            }
        },
    }
}

/// A label behind the run of an xref.
fn labelled(
    alloc: Global,
    id: &[MarkedByte],
    marks: &[MarkedByte],
) -> Result<QualifiedValue, LineFault>
    ensures { Gives (read.labelled (spec.read_as id.now) marks.now) result }
{
    let (label, rest) = quoted_at(marks)?;
    let (id, label, qualifiers) = texts_to_end(alloc, id, label, rest)?;
    Ok(QualifiedValue {
        value: Value::XrefValue(Xref {
            id,
            label: Some(label),
        }),
        qualifiers,
    })
}

/// A property, and a quoted text with its datatype or a word.
#[tactic(auto, unfolding(obo_clause::specs::ReadingLines::read_property))]
fn read_property(alloc: Global, marks: &[MarkedByte]) -> Result<QualifiedValue, LineFault>
    ensures { Gives (read.read_property marks.now) result }
{
    let (relation, rest) = want_word(marks)?;
    match behind_sign(b'"', behind_blanks(rest)) {
        None => read_link(alloc, relation, rest),
        Some(_) => read_literal(alloc, relation, rest),
    }
}

/// A quoted text and its datatype.
#[tactic(auto, unfolding(obo_clause::specs::ReadingLines::read_literal))]
fn read_literal(
    alloc: Global,
    relation: &[MarkedByte],
    marks: &[MarkedByte],
) -> Result<QualifiedValue, LineFault>
    ensures { Gives (read.read_literal (spec.read_as relation.now) marks.now) result }
{
    let (text, rest) = quoted_at(marks)?;
    let (datatype, rest) = may_have_word(rest);
    let datatype = datatype_of(alloc, datatype)?;
    match texts_to_end(alloc, relation, text, rest) {
        Ok((relation, text, qualifiers)) => Ok(QualifiedValue {
            value: Value::Literal {
                relation,
                text,
                datatype,
            },
            qualifiers,
        }),
        Err(fault) => {
            drop(datatype);
            Err(fault)
        }
    }
}

/// The datatype that a word is, or that of a text that has none.
fn datatype_of(alloc: Global, word: Option<&[MarkedByte]>) -> Result<Bytes, LineFault>
    ensures { Gives (Ok (read.datatype_of (option_copied word.entry))) result }
{
    match word {
        None => Ok(Bytes::from_slice(alloc, TEXT_DATATYPE)?),
        Some(word) => Ok(text_of(alloc, word)?),
    }
}

/// A word behind its property.
#[tactic(auto, unfolding(obo_clause::specs::ReadingLines::read_link))]
fn read_link(
    alloc: Global,
    relation: &[MarkedByte],
    marks: &[MarkedByte],
) -> Result<QualifiedValue, LineFault>
    ensures { Gives (read.read_link (spec.read_as relation.now) marks.now) result }
{
    let (target, rest) = want_word(marks)?;
    let (relation, target, qualifiers) = texts_to_end(alloc, relation, target, rest)?;
    Ok(QualifiedValue {
        value: Value::Link { relation, target },
        qualifiers,
    })
}

/// A word and a quoted text.
#[tactic(auto, unfolding(obo_clause::specs::ReadingLines::read_subset))]
fn read_subset(alloc: Global, marks: &[MarkedByte]) -> Result<QualifiedValue, LineFault>
    ensures { Gives (read.read_subset marks.now) result }
{
    let (id, rest) = want_word(marks)?;
    let (text, rest) = quoted_at(rest)?;
    let (id, text, qualifiers) = texts_to_end(alloc, id, text, rest)?;
    Ok(QualifiedValue {
        value: Value::SubsetDef { id, text },
        qualifiers,
    })
}

/// A word, a quoted text, and its scope.
#[tactic(auto, unfolding(obo_clause::specs::ReadingLines::read_synonym_type))]
fn read_synonym_type(alloc: Global, marks: &[MarkedByte]) -> Result<QualifiedValue, LineFault>
    ensures { Gives (read.read_synonym_type marks.now) result }
{
    let (id, rest) = want_word(marks)?;
    let (text, rest) = quoted_at(rest)?;
    let (scope, rest) = type_scope_at(alloc, rest)?;
    let (id, text, qualifiers) = texts_to_end(alloc, id, text, rest)?;
    Ok(QualifiedValue {
        value: Value::SynonymDef { id, text, scope },
        qualifiers,
    })
}
