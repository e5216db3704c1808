//! What a line ends with: a block of qualifiers, as `{source="EX:1", is_inferred="true"}`, and a comment.
ghost use Rattle.std.specs.Prelude.{◌≡◌, ◌&&◌, ◌||◌, IfOk, MatchOption, None, Some, is_some, length, suc};
ghost use Rattle.clause_reader.specs.inner.Results.{FindsWith, Gives};
ghost use Rattle.obo_clause.specs.Marks.{read_as};
ghost use Rattle.obo_clause.specs.Reading as read;

use crate::marks::{Class, behind_blanks, split_run, text_of, trim_end};
use crate::runs::{behind_sign, inside_quotes, is_comment};
use obo_clause::{LineFault, MarkedByte, Qualifier, SyntaxKind};
use rel_io::{Items, NoMemory};
use std::alloc::Global;

/// A qualifier and what stands behind it.
#[derive(Clone, Copy)]
struct Field<'a> {
    key: &'a [MarkedByte],
    value: &'a [MarkedByte],
    rest: &'a [MarkedByte],
}

/// The qualifier with which the marks begin.
#[tactic(auto, unfolding(obo_clause::specs::Reading::field_at))]
fn field_at(marks: &[MarkedByte]) -> Option<Field<'_>>
    ensures { MatchOption result
        (read.field_at marks.now ≡ None)
        (λ field. read.field_at marks.now ≡ Some (field.key.now, field.value.now, field.rest.now)) }
{
    let (key, rest) = split_run(Class::Key, marks);
    if key.is_empty() {
        return None;
    }
    let value = behind_sign(b'=', behind_blanks(rest))?;
    field_value(key, behind_blanks(value))
}

/// The value of a qualifier behind its key. Without quotes it ends at a `{` or `"` too, so that no part of a line is
/// looked at again and again; neither may follow it.
fn field_value<'a>(key: &'a [MarkedByte], marks: &'a [MarkedByte]) -> Option<Field<'a>>
    ensures { MatchOption result
        (read.field_value key.now marks.now ≡ None)
        (λ field. read.field_value key.now marks.now ≡ Some (field.key.now, field.value.now, field.rest.now)) }
{
    match behind_sign(b'"', marks) {
        None => Some(unquoted_field(key, marks)),
        Some(inside) => quoted_field(key, inside),
    }
}

/// A qualifier without quotes.
fn unquoted_field<'a>(key: &'a [MarkedByte], marks: &'a [MarkedByte]) -> Field<'a>
    ensures { read.unquoted_field key.now marks.now ≡ (result.key.now, result.value.now, result.rest.now) }
{
    let (run, rest) = split_run(Class::Unquoted, marks);
    Field {
        key,
        value: trim_end(run),
        rest,
    }
}

/// A qualifier with quotes, from behind the first on.
fn quoted_field<'a>(key: &'a [MarkedByte], marks: &'a [MarkedByte]) -> Option<Field<'a>>
    ensures { MatchOption result
        (read.quoted_field key.now marks.now ≡ None)
        (λ field. read.quoted_field key.now marks.now ≡ Some (field.key.now, field.value.now, field.rest.now)) }
{
    let (value, rest) = inside_quotes(marks)?;
    Some(Field {
        key,
        value,
        rest: behind_blanks(rest),
    })
}

/// What a qualifier is kept as.
fn qualifier_of(
    alloc: Global,
    key: &[MarkedByte],
    value: &[MarkedByte],
) -> Result<Qualifier, NoMemory>
    ensures { IfOk result (λ one. one ≡ record { key = read_as key.now; value = read_as value.now }) }
{
    let key = text_of(alloc, key)?;
    let value = text_of(alloc, value)?;
    Ok(Qualifier { key, value })
}

/// The qualifiers up to the block's end, and what stands behind it. None: it is no block.
fn qualifiers_in(
    alloc: Global,
    marks: &[MarkedByte],
) -> Result<Option<(Items<Qualifier>, &[MarkedByte])>, NoMemory>
    ensures { IfOk result (FindsWith (read.qualifiers_from (suc (length marks.now)) marks.now)) }
{
    let mut qualifiers = Vec::new(alloc);
    let mut rest = marks;
    // A qualifier and its comma are at least one mark.
    for _ in 0..marks.len() + 1 {
        let field = match field_at(rest) {
            None => return Ok(None),
            Some(field) => field,
        };
        qualifiers.push(qualifier_of(alloc, field.key, field.value)?)?;
        match behind_sign(b',', field.rest) {
            None => return Ok(block_end(qualifiers, field.rest)),
            Some(more) => rest = behind_blanks(more),
        }
    }
    Ok(None)
}

/// A block with its last qualifier, at its size, where its end stands.
fn block_end(
    qualifiers: Vec<Qualifier>,
    marks: &[MarkedByte],
) -> Option<(Items<Qualifier>, &[MarkedByte])>
    ensures { FindsWith (read.block_end qualifiers.items marks.now) result }
{
    match behind_sign(b'}', marks) {
        None => None,
        Some(rest) => {
            let mut qualifiers = qualifiers;
            qualifiers.shrink_to_fit();
            Some((Items::from_vec(qualifiers), rest))
        }
    }
}

/// The qualifiers of the ending, if the marks are one. It looks no further than the next `{` that stands outside
/// quotes.
#[tactic(auto, unfolding(obo_clause::specs::Reading::ending_at))]
fn ending_at(alloc: Global, marks: &[MarkedByte]) -> Result<Option<Items<Qualifier>>, NoMemory>
    ensures { IfOk result (λ found. found ≡ read.ending_at marks.now) }
{
    if is_comment(marks) {
        return Ok(Some(Items::from_vec(Vec::new(alloc))));
    }
    match behind_sign(b'{', marks) {
        None => Ok(None),
        Some(inside) => block_ending(alloc, inside),
    }
}

/// The qualifiers of a block from behind its `{` on, where only blanks and a comment follow it.
#[tactic(auto, unfolding(obo_clause::specs::Reading::block_at))]
fn block_ending(alloc: Global, marks: &[MarkedByte]) -> Result<Option<Items<Qualifier>>, NoMemory>
    ensures { IfOk result (λ found. found ≡ read.block_ending marks.now) }
{
    match qualifiers_in(alloc, behind_blanks(marks))? {
        None => Ok(None),
        Some((qualifiers, rest)) => {
            if is_comment(behind_blanks(rest)) {
                Ok(Some(qualifiers))
            } else {
                Ok(None)
            }
        }
    }
}

/// The qualifiers of the ending behind blanks.
#[tactic(auto, unfolding(obo_clause::specs::Reading::end_at))]
pub fn end_at(alloc: Global, marks: &[MarkedByte]) -> Result<Items<Qualifier>, LineFault>
    ensures { Gives (read.end_at marks.now) result }
{
    ending_at(alloc, behind_blanks(marks))?.ok_or(LineFault::Syntax(SyntaxKind::Trailing))
}

/// A run of characters, what stands behind it, and the qualifiers of that where it is an ending.
#[derive(Drop)]
pub struct FreeRun<'a> {
    /// The run, with the blanks at its end.
    pub run: &'a [MarkedByte],
    /// What stands behind it.
    pub rest: &'a [MarkedByte],
    /// None: what stands behind the run is no ending.
    pub qualifiers: Option<Items<Qualifier>>,
}

/// Whether a run stops before these marks: at an ending, which has qualifiers, or at a `"` if that ends it too.
fn stops_run(at_quote: bool, qualifiers: &Option<Items<Qualifier>>, marks: &[MarkedByte]) -> bool
    ensures { result ≡ (is_some qualifiers.now || (at_quote && is_some (read.behind_sign 34 marks.now))) }
{
    qualifiers.is_some() || at_quote && behind_sign(b'"', marks).is_some()
}

/// The run of characters up to an ending, or a `"` if that ends it too.
pub fn free_run(
    alloc: Global,
    at_quote: bool,
    marks: &[MarkedByte],
) -> Result<FreeRun<'_>, NoMemory>
    ensures run { IfOk result (λ found. (found.run.now, found.rest.now) ≡ read.free_run at_quote marks.now) }
    ensures ending { IfOk result (λ found. found.qualifiers ≡ read.ending_at found.rest.now) }
{
    let mut end = 0;
    while end < marks.len() {
        let rest = &marks[end..];
        let qualifiers = ending_at(alloc, rest)?;
        if stops_run(at_quote, &qualifiers, rest) {
            return Ok(FreeRun {
                run: &marks[..end],
                rest,
                qualifiers,
            });
        }
        drop(qualifiers);
        end += 1;
    }
    let (run, rest) = marks.split_at(end);
    Ok(FreeRun {
        run,
        rest,
        qualifiers: Some(Items::from_vec(Vec::new(alloc))),
    })
}
