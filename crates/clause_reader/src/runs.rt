//! Words, quoted texts and signs: the parts of a value that stand side by side.
ghost use Rattle.std.specs.Prelude.{◌≡◌, MatchOption, MatchResult, None, Some, Ok, Err};
ghost use Rattle.std.specs.Option.{option_copied};
ghost use Rattle.obo_clause.specs.Reading as read;
ghost use Rattle.obo_clause.specs.ReadingLines.{want_word};

use crate::marks::{Class, behind_blanks, is_sign, split_run};
use obo_clause::{MarkedByte, SyntaxKind};

/// What stands behind the sign, if the marks begin with it.
pub fn behind_sign(sign: u8, marks: &[MarkedByte]) -> Option<&[MarkedByte]>
    ensures { option_copied result ≡ read.behind_sign sign marks.now }
{
    match marks {
        [first, rest @ ..] if is_sign(sign, *first) => Some(rest),
        _ => None,
    }
}

/// Whether nothing is left, or a comment.
pub fn is_comment(marks: &[MarkedByte]) -> bool
    ensures { result ≡ read.is_comment marks.now }
{
    match marks {
        [] => true,
        [first, ..] => is_sign(b'!', *first),
    }
}

/// The word behind blanks, if there is one, and the rest.
#[tactic(auto, unfolding(obo_clause::specs::Reading::word_at))]
pub fn word_at(marks: &[MarkedByte]) -> Option<(&[MarkedByte], &[MarkedByte])>
    ensures { MatchOption result
        (read.word_at marks.now ≡ None)
        (λ word. read.word_at marks.now ≡ Some (word.0.now, word.1.now)) }
{
    let (word, rest) = split_run(Class::Word, behind_blanks(marks));
    if word.is_empty() {
        None
    } else {
        Some((word, rest))
    }
}

/// The word behind blanks, and the rest.
pub fn want_word(marks: &[MarkedByte]) -> Result<(&[MarkedByte], &[MarkedByte]), SyntaxKind>
    ensures { MatchResult result
        (λ word. want_word marks.now ≡ Ok (word.0.now, word.1.now))
        (λ one. want_word marks.now ≡ Err one) }
{
    word_at(marks).ok_or(SyntaxKind::NoValue)
}

/// The inside of a quoted text, from behind its first `"` on, and the rest.
#[tactic(auto, unfolding(obo_clause::specs::Reading::inside_quotes))]
pub fn inside_quotes(marks: &[MarkedByte]) -> Option<(&[MarkedByte], &[MarkedByte])>
    ensures { MatchOption result
        (read.inside_quotes marks.now ≡ None)
        (λ text. read.inside_quotes marks.now ≡ Some (text.0.now, text.1.now)) }
{
    let (inside, end) = split_run(Class::Quoted, marks);
    let rest = behind_sign(b'"', end)?;
    Some((inside, rest))
}

/// The inside of the quoted text behind blanks, and the rest.
#[tactic(auto, unfolding(obo_clause::specs::Reading::quoted_at))]
pub fn quoted_at(marks: &[MarkedByte]) -> Result<(&[MarkedByte], &[MarkedByte]), SyntaxKind>
    ensures { MatchResult result
        (λ text. read.quoted_at marks.now ≡ Ok (text.0.now, text.1.now))
        (λ one. read.quoted_at marks.now ≡ Err one) }
{
    match behind_sign(b'"', behind_blanks(marks)) {
        None => Err(SyntaxKind::NoQuote),
        Some(inside) => end_of_quotes(inside),
    }
}

/// The inside of a quoted text, from behind its first `"` on, and the rest.
pub fn end_of_quotes(marks: &[MarkedByte]) -> Result<(&[MarkedByte], &[MarkedByte]), SyntaxKind>
    ensures { MatchResult result
        (λ text. read.end_of_quotes marks.now ≡ Ok (text.0.now, text.1.now))
        (λ one. read.end_of_quotes marks.now ≡ Err one) }
{
    inside_quotes(marks).ok_or(SyntaxKind::OpenQuote)
}
