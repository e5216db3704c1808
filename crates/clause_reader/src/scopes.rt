//! The words behind a quoted text: scopes, types and datatypes.
ghost use Rattle.std.specs.Prelude.{◌≡◌, IfOk};
ghost use Rattle.std.specs.Option.{option_copied};
ghost use Rattle.clause_reader.specs.inner.Results.{GivesWith};
ghost use Rattle.obo_clause.specs.Reading.{text_read};
ghost use Rattle.obo_clause.specs.ReadingLines as read;

use crate::bytes::is_word;
use crate::marks::text_of;
use crate::runs::word_at;
use obo_clause::{LineFault, MarkedByte, Scope, SyntaxKind};
use rel_io::{Bytes, NoMemory};
use std::alloc::Global;

/// The scope that a word is for.
fn scope_of(word: &Bytes) -> Option<Scope>
    ensures { result ≡ read.scope_of word.now }
{
    let word = word.as_slice();
    if is_word(word, b"EXACT") {
        return Some(Scope::Exact);
    }
    if is_word(word, b"BROAD") {
        return Some(Scope::Broad);
    }
    if is_word(word, b"NARROW") {
        return Some(Scope::Narrow);
    }
    if is_word(word, b"RELATED") {
        return Some(Scope::Related);
    }
    None
}

/// What stands between the text of a synonym and its list.
#[derive(Clone, Copy)]
pub struct Scoped<'a> {
    /// The scope that is written, or `Related`.
    pub scope: Scope,
    /// The type, if one is written.
    pub kind: Option<&'a [MarkedByte]>,
    /// What stands behind both.
    pub rest: &'a [MarkedByte],
}

/// The scope and the type behind the text of a synonym. A first word that is no scope is the type.
#[tactic(auto, unfolding(obo_clause::specs::ReadingLines::scoped_at))]
pub fn scoped_at(alloc: Global, marks: &[MarkedByte]) -> Result<Scoped<'_>, NoMemory>
    ensures { IfOk result (λ found. (found.scope, text_read (option_copied found.kind), found.rest.now) ≡ read.scoped_at marks.now) }
{
    let Some((word, rest)) = word_at(marks) else {
        return Ok(Scoped {
            scope: Scope::Related,
            kind: None,
            rest: marks,
        });
    };
    let scope = scope_of(&text_of(alloc, word)?);
    match scope {
        None => Ok(Scoped {
            scope: Scope::Related,
            kind: Some(word),
            rest,
        }),
        Some(scope) => Ok(type_behind(scope, rest)),
    }
}

/// The type behind a scope, if there is one.
fn type_behind(scope: Scope, marks: &[MarkedByte]) -> Scoped<'_>
    ensures { (result.scope, text_read (option_copied result.kind), result.rest.now) ≡ read.type_behind scope marks.now }
{
    match word_at(marks) {
        None => Scoped {
            scope,
            kind: None,
            rest: marks,
        },
        Some((kind, rest)) => Scoped {
            scope,
            kind: Some(kind),
            rest,
        },
    }
}

/// An optional word, and the rest.
pub fn may_have_word(marks: &[MarkedByte]) -> (Option<&[MarkedByte]>, &[MarkedByte])
    ensures { (option_copied result.0, result.1.now) ≡ read.may_have_word marks.now }
{
    match word_at(marks) {
        None => (None, marks),
        Some((word, rest)) => (Some(word), rest),
    }
}

/// The scope behind the text of a synonym type, if there is one. Another word is too much.
#[tactic(auto, unfolding(obo_clause::specs::ReadingLines::type_scope_at))]
pub fn type_scope_at(
    alloc: Global,
    marks: &[MarkedByte],
) -> Result<(Option<Scope>, &[MarkedByte]), LineFault>
    ensures { GivesWith (read.type_scope_at marks.now) result }
{
    let Some((word, rest)) = word_at(marks) else {
        return Ok((None, marks));
    };
    let scope = scope_of(&text_of(alloc, word)?);
    match scope {
        None => Err(LineFault::Syntax(SyntaxKind::Trailing)),
        Some(scope) => Ok((Some(scope), rest)),
    }
}
