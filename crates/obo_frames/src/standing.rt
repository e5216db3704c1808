//! The clauses of a file, each put into its place.
ghost use Rattle.std.specs.Prelude.{◌≡◌, ◌∷◌, ◌++◌, [], IfOk, None};
ghost use Rattle.std.specs.Option.{option_copied};
ghost use Rattle.obo_frames.specs.Documents.{least_line, lesser_line};
ghost use Rattle.obo_frames.specs.Frames as spec;
ghost use Rattle.obo_frames.specs.declared.standing.Standing.TheVariants.{Header, Within};
ghost use Rattle.obo_frames.specs.inner.Standing.{behind_clause, behind_line, lost_at_clause, lost_at_end, lost_at_line, lost_unless, named, place_first, placed_by_clause, placed_by_line};

use crate::Placed;
use crate::told::Told;
use obo_clause::{Clause, Line, Value};
use obo_tags::FrameKind;
use rel_io::{Bytes, Dup, Items, NoMemory};
use std::alloc::Global;

/// What the clauses belong to that come next.
#[derive(Drop)]
pub enum Standing {
    /// The header.
    Header,
    /// A frame that began at this line, and has no clause yet.
    Begun { kind: FrameKind, line: u32 },
    /// A frame with this id.
    Within { kind: FrameKind, id: Bytes },
    /// A frame whose first clause gave no id.
    Nameless,
}

/// What was placed so far.
#[derive(Drop)]
pub struct Draft {
    /// What the next clause belongs to.
    pub standing: Standing,
    /// The clauses, in the order of their lines.
    pub placed: Items<Placed>,
    /// The least line at which a frame without an id begins.
    pub lost: Option<u32>,
}

/// Nothing is placed, and the clauses of the header come next.
pub fn empty_draft(alloc: Global) -> Draft
    ensures standing { result.standing ≡ Header }
    ensures placed { result.placed ≡ [] }
    ensures lost { result.lost ≡ None }
{
    Draft {
        standing: Standing::Header,
        placed: Items::from_vec(Vec::new(alloc)),
        lost: None,
    }
}

/// One line more.
pub fn placed_more(alloc: Global, draft: Draft, told: Told) -> Result<Draft, NoMemory>
    ensures standing { IfOk result (λ next. next.standing ≡ behind_line draft.standing told.line told.said) }
    ensures placed { IfOk result (λ next. next.placed ≡ draft.placed ++ placed_by_line draft.standing told.line told.said) }
    ensures lost { IfOk result (λ next. next.lost ≡ least_line draft.lost (lost_at_line draft.standing told.said)) }
{
    let Told { line, said } = told;
    match said {
        Line::Blank => Ok(draft),
        Line::Frame(kind) => {
            let lost = lost_at_end(&draft.standing, draft.lost);
            Ok(Draft {
                standing: Standing::Begun { kind, line },
                placed: draft.placed,
                lost,
            })
        }
        Line::Content(clause) => placed_clause(alloc, draft, line, clause),
    }
}

/// The least line with that of a frame that ends here without a clause.
pub fn lost_at_end(standing: &Standing, lost: Option<u32>) -> Option<u32>
    ensures { result ≡ least_line lost (lost_at_end standing.now) }
{
    match standing {
        Standing::Begun { line, .. } => Some(lesser_line(lost, *line)),
        _ => lost,
    }
}

/// The lesser of two lines, the first of which may be missing.
pub fn lesser_line(best: Option<u32>, line: u32) -> u32
    ensures { result ≡ lesser_line best line }
{
    match best {
        Some(best) => best.min(line),
        None => line,
    }
}

/// One clause more.
fn placed_clause(alloc: Global, draft: Draft, line: u32, clause: Clause) -> Result<Draft, NoMemory>
    ensures standing { IfOk result (λ next. next.standing ≡ behind_clause draft.standing clause) }
    ensures placed { IfOk result (λ next. next.placed ≡ draft.placed ++ placed_by_clause draft.standing (record { line = line; clause = clause })) }
    ensures lost { IfOk result (λ next. next.lost ≡ least_line draft.lost (lost_at_clause draft.standing clause)) }
{
    let Draft {
        standing,
        placed,
        lost,
    } = draft;
    match standing {
        Standing::Header => {
            let one = Placed {
                frame: FrameKind::Header,
                id: Bytes::from_vec(Vec::new(alloc)),
                line,
                clause,
            };
            with_placed(placed, lost, one, Standing::Header)
        }
        Standing::Begun { kind, line: begun } => {
            placed_first(alloc, placed, lost, kind, begun, line, clause)
        }
        Standing::Within { kind, id } => {
            placed_within(alloc, placed, lost, kind, id, line, clause)
        }
        Standing::Nameless => {
            drop(clause);
            Ok(Draft {
                standing: Standing::Nameless,
                placed,
                lost,
            })
        }
    }
}

/// The first clause of a frame, which is to give the id.
fn placed_first(
    alloc: Global,
    placed: Items<Placed>,
    lost: Option<u32>,
    kind: FrameKind,
    begun: u32,
    line: u32,
    clause: Clause,
) -> Result<Draft, NoMemory>
    ensures standing { IfOk result (λ next. next.standing ≡ named kind (spec.id_in clause)) }
    ensures placed { IfOk result (λ next. next.placed ≡ placed ++ place_first kind (spec.id_in clause) (record { line = line; clause = clause })) }
    ensures lost { IfOk result (λ next. next.lost ≡ least_line lost (lost_unless (spec.id_in clause) begun)) }
{
    let Some(id) = id_in(&clause) else {
        drop(clause);
        let lost = Some(lesser_line(lost, begun));
        return Ok(Draft {
            standing: Standing::Nameless,
            placed,
            lost,
        });
    };
    match id.copy(alloc) {
        Ok(id) => {
            let clause = without_qualifiers(alloc, clause);
            placed_within(alloc, placed, lost, kind, id, line, clause)
        }
        Err(none) => {
            drop(clause);
            Err(none)
        }
    }
}

/// A clause of the frame with this id.
fn placed_within(
    alloc: Global,
    placed: Items<Placed>,
    lost: Option<u32>,
    kind: FrameKind,
    id: Bytes,
    line: u32,
    clause: Clause,
) -> Result<Draft, NoMemory>
    ensures standing { IfOk result (λ next. next.standing ≡ Within kind id) }
    ensures placed { IfOk result (λ next. next.placed ≡ placed ++ spec.place_entry kind id (record { line = line; clause = clause }) ∷ []) }
    ensures lost { IfOk result (λ next. next.lost ≡ lost) }
{
    match id.copy(alloc) {
        Ok(own) => {
            let one = Placed {
                frame: kind,
                id: own,
                line,
                clause,
            };
            with_placed(placed, lost, one, Standing::Within { kind, id })
        }
        Err(none) => {
            drop(clause);
            Err(none)
        }
    }
}

/// One placed clause more, and what the clauses behind it belong to.
fn with_placed(
    placed: Items<Placed>,
    lost: Option<u32>,
    one: Placed,
    standing: Standing,
) -> Result<Draft, NoMemory>
    ensures standing { IfOk result (λ next. next.standing ≡ standing) }
    ensures placed { IfOk result (λ next. next.placed ≡ placed ++ one ∷ []) }
    ensures lost { IfOk result (λ next. next.lost ≡ lost) }
{
    let mut items = placed.into_vec();
    items.push(one)?;
    Ok(Draft {
        standing,
        placed: Items::from_vec(items),
        lost,
    })
}

/// The clause without its qualifiers.
fn without_qualifiers(alloc: Global, clause: Clause) -> Clause
    ensures { result ≡ record clause { qualifiers = [] } }
{
    let Clause { tag, value, .. } = clause;
    Clause {
        tag,
        value,
        qualifiers: Items::from_vec(Vec::new(alloc)),
    }
}

/// The id that a clause gives its frame, where it is the first one there.
fn id_in(clause: &Clause) -> Option<&Bytes>
    ensures { option_copied result ≡ spec.id_in clause.now }
{
    if clause.tag.as_slice() == b"id".as_slice() {
        word_in(&clause.value)
    } else {
        None
    }
}

/// The word that a value is.
pub fn word_in(value: &Value) -> Option<&Bytes>
    ensures { option_copied result ≡ spec.word_in value.now }
{
    match value {
        Value::Id(word) => Some(word),
        _ => None,
    }
}
