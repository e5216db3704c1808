//! The functional-style text of expressions, annotations and axioms. Each part is appended by a function of its own.
ghost use Rattle.std.specs.Prelude.{◌≡◌, ◌∷◌, ◌++◌, [], IfOk, OnErr, OnOk, codes, map};
ghost use Rattle.std.specs.Fmt.{decimal};
ghost use Rattle.std.specs.List.{flat_map, join_with_byte};
ghost use Rattle.owl_axioms.specs.Text as spec;
ghost use Rattle.owl_axioms.specs.inner.Joined.{end_two, gap, opening, spaced};

use crate::vocabulary::{owl_nothing, owl_thing, rdfs_label};
use crate::{ClassExpr, NoteValue, Side};
use itoa::Buffer;
use rel_io::{Bytes, Iri, NoMemory};
use std::alloc::Global;

/// Appends the functional-style text of a class expression. It is made whole before, so that `out` stays as it was where
/// no memory is left. It takes time in proportion to the text.
pub fn expr_text(alloc: Global, tree: &ClassExpr, out: &mut Vec<u8>) -> Result<(), NoMemory>
    ensures text { OnOk result (out.new.items ≡ out.old.items ++ spec.expr_text tree.now) }
    ensures unchanged { OnErr result (out.new.items ≡ out.old.items) }
{
    let text = text_of_expr(alloc, tree)?;
    out.extend_from_slice(text.as_slice())?;
    Ok(())
}

/// The text of a class expression.
pub fn text_of_expr(alloc: Global, tree: &ClassExpr) -> Result<Bytes, NoMemory>
    ensures { IfOk result (λ text. text ≡ spec.expr_text tree.now) }
{
    let mut text = Vec::new(alloc);
    push_expr(&mut text, tree)?;
    Ok(Bytes::from_vec(text))
}

/// The text of an IRI.
pub fn text_of_iri(alloc: Global, iri: &Iri) -> Result<Bytes, NoMemory>
    ensures { IfOk result (λ text. text ≡ spec.iri_text iri.now) }
{
    let mut text = Vec::new(alloc);
    push_iri(&mut text, iri.as_slice())?;
    Ok(Bytes::from_vec(text))
}

/// The text of an annotation.
pub fn text_of_side(alloc: Global, side: &Side) -> Result<Bytes, NoMemory>
    ensures { IfOk result (λ text. text ≡ spec.side_text side.now) }
{
    let mut text = Vec::new(alloc);
    push_side(&mut text, side)?;
    Ok(Bytes::from_vec(text))
}

/// Appends a class expression.
#[cycle(writing)]
#[tactic(auto, using(crate::proofs::Layers::layer_texts))]
pub fn push_expr(out: &mut Vec<u8>, tree: &ClassExpr) -> Result<(), NoMemory>
    ensures { OnOk result (out.new.items ≡ out.old.items ++ spec.expr_text tree.now) }
{
    match tree {
        ClassExpr::Thing => push_iri(out, owl_thing()),
        ClassExpr::Nothing => push_iri(out, owl_nothing()),
        ClassExpr::Class(iri) => push_iri(out, iri.as_slice()),
        ClassExpr::And(operands) => push_group(out, b"ObjectIntersectionOf", operands.as_slice()),
        ClassExpr::Or(operands) => push_group(out, b"ObjectUnionOf", operands.as_slice()),
        ClassExpr::Not(part) => push_part(out, b"ObjectComplementOf", part.get()),
        ClassExpr::Some(role, part) => push_filler(out, b"ObjectSomeValuesFrom", role, part.get()),
        ClassExpr::All(role, part) => push_filler(out, b"ObjectAllValuesFrom", role, part.get()),
        ClassExpr::Min(n, role, part) => push_counted(
            out,
            b"ObjectMinCardinality",
            *n,
            role,
            part.get(),
        ),
        ClassExpr::Max(n, role, part) => push_counted(
            out,
            b"ObjectMaxCardinality",
            *n,
            role,
            part.get(),
        ),
        ClassExpr::Exact(n, role, part) => push_counted(
            out,
            b"ObjectExactCardinality",
            *n,
            role,
            part.get(),
        ),
    }
}

/// Appends a group with its operands.
#[cycle(writing)]
#[tactic(auto, unfolding(crate::specs::Text::phrase))]
fn push_group(out: &mut Vec<u8>, word: &[u8], operands: &[ClassExpr]) -> Result<(), NoMemory>
    ensures { OnOk result (out.new.items ≡ out.old.items ++ spec.phrase word.now (map spec.expr_text operands.now)) }
{
    push_open(out, word)?;
    push_operands(out, operands)?;
    push_byte(out, b')')
}

/// Appends operands with a space between each two.
#[cycle(writing)]
fn push_operands(out: &mut Vec<u8>, operands: &[ClassExpr]) -> Result<(), NoMemory>
    ensures { OnOk result (out.new.items ≡ out.old.items ++ join_with_byte 32 (map spec.expr_text operands.now)) }
{
    let mut is_first = true;
    for operand in operands {
        push_gap(out, is_first)?;
        push_expr(out, operand)?;
        is_first = false;
    }
    Ok(())
}

/// Appends what has one part.
#[cycle(writing)]
#[tactic(auto, unfolding(crate::specs::Text::phrase))]
fn push_part(out: &mut Vec<u8>, word: &[u8], part: &ClassExpr) -> Result<(), NoMemory>
    ensures { OnOk result (out.new.items ≡ out.old.items ++ spec.phrase word.now (spec.expr_text part.now ∷ [])) }
{
    push_open(out, word)?;
    push_expr(out, part)?;
    push_byte(out, b')')
}

/// Appends a restriction of a property to a filler.
#[cycle(writing)]
#[tactic(auto, unfolding(crate::specs::Text::phrase))]
fn push_filler(out: &mut Vec<u8>, word: &[u8], role: &Iri, part: &ClassExpr) -> Result<(), NoMemory>
    ensures { OnOk result (out.new.items ≡ out.old.items
        ++ spec.phrase word.now (spec.iri_text role.now ∷ spec.expr_text part.now ∷ [])) }
{
    push_open(out, word)?;
    push_iri(out, role.as_slice())?;
    push_byte(out, b' ')?;
    push_expr(out, part)?;
    push_byte(out, b')')
}

/// Appends a restriction of the number of fillers.
#[cycle(writing)]
#[tactic(auto, unfolding(crate::specs::Text::phrase))]
fn push_counted(
    out: &mut Vec<u8>,
    word: &[u8],
    n: u32,
    role: &Iri,
    part: &ClassExpr,
) -> Result<(), NoMemory>
    ensures { OnOk result (out.new.items ≡ out.old.items
        ++ spec.phrase word.now (decimal n ∷ spec.iri_text role.now ∷ spec.expr_text part.now ∷ [])) }
{
    push_open(out, word)?;
    push_number(out, n)?;
    push_byte(out, b' ')?;
    push_iri(out, role.as_slice())?;
    push_byte(out, b' ')?;
    push_expr(out, part)?;
    push_byte(out, b')')
}

/// Appends an annotation of an axiom.
pub fn push_side(out: &mut Vec<u8>, side: &Side) -> Result<(), NoMemory>
    ensures { OnOk result (out.new.items ≡ out.old.items ++ spec.side_text side.now) }
{
    push_side_opening(out, &side.label)?;
    end_value(out, &side.property, &side.value)
}

/// Appends an annotation property and its value as the last two parts.
#[tactic(auto, unfolding(crate::specs::inner::Joined::end_one, crate::specs::inner::Joined::end_two))]
pub fn end_value(out: &mut Vec<u8>, property: &Iri, value: &NoteValue) -> Result<(), NoMemory>
    ensures { OnOk result (out.new.items ≡ out.old.items
        ++ end_two (spec.iri_text property.now) (spec.value_text value.now)) }
{
    push_iri(out, property.as_slice())?;
    push_byte(out, b' ')?;
    push_value(out, value)?;
    push_byte(out, b')')
}

/// Appends the word of an annotation, its bracket and its label.
#[tactic(auto, unfolding(crate::specs::inner::Joined::opening))]
fn push_side_opening(out: &mut Vec<u8>, label: &Option<Bytes>) -> Result<(), NoMemory>
    ensures { OnOk result (out.new.items ≡ out.old.items ++ opening (codes "Annotation") (spec.label_texts label.now)) }
{
    push_open(out, b"Annotation")?;
    push_label(out, label)
}

/// Appends the label of an annotation with a space behind it, where there is one.
#[tactic(auto, unfolding(crate::specs::Text::label_texts, crate::specs::Text::phrase))]
fn push_label(out: &mut Vec<u8>, label: &Option<Bytes>) -> Result<(), NoMemory>
    ensures { OnOk result (out.new.items ≡ out.old.items ++ spaced (spec.label_texts label.now)) }
{
    if let Some(label) = label {
        push_open(out, b"Annotation")?;
        push_iri(out, rdfs_label())?;
        push_byte(out, b' ')?;
        push_quoted(out, label.as_slice())?;
        push_bytes(out, b") ")?;
    }
    Ok(())
}

/// Appends the value of an annotation.
#[tactic(auto, unfolding(crate::specs::Text::value_text))]
pub fn push_value(out: &mut Vec<u8>, value: &NoteValue) -> Result<(), NoMemory>
    ensures { OnOk result (out.new.items ≡ out.old.items ++ spec.value_text value.now) }
{
    match value {
        NoteValue::Text(text) => push_quoted(out, text.as_slice()),
        NoteValue::Typed(text, datatype) => push_typed(out, text.as_slice(), datatype.as_slice()),
        NoteValue::Link(iri) => push_iri(out, iri.as_slice()),
    }
}

/// Appends a text of a datatype.
fn push_typed(out: &mut Vec<u8>, text: &[u8], datatype: &[u8]) -> Result<(), NoMemory>
    ensures { OnOk result (out.new.items ≡ out.old.items
        ++ (spec.quoted text.now ++ codes "^^" ++ spec.iri_text datatype.now)) }
{
    push_quoted(out, text)?;
    push_bytes(out, b"^^")?;
    push_iri(out, datatype)
}

/// Appends a text in quotes.
#[tactic(auto, unfolding(crate::specs::Text::quoted))]
fn push_quoted(out: &mut Vec<u8>, text: &[u8]) -> Result<(), NoMemory>
    ensures { OnOk result (out.new.items ≡ out.old.items ++ spec.quoted text.now) }
{
    push_byte(out, b'"')?;
    push_escaped(out, text)?;
    push_byte(out, b'"')
}

/// Appends a text with a backslash before each quote and backslash.
fn push_escaped(out: &mut Vec<u8>, text: &[u8]) -> Result<(), NoMemory>
    ensures { OnOk result (out.new.items ≡ out.old.items ++ flat_map spec.escaped text.now) }
{
    for byte in text {
        push_escaped_byte(out, *byte)?;
    }
    Ok(())
}

/// Appends a byte, behind a backslash where it needs one.
fn push_escaped_byte(out: &mut Vec<u8>, byte: u8) -> Result<(), NoMemory>
    ensures { OnOk result (out.new.items ≡ out.old.items ++ spec.escaped byte) }
{
    if byte == b'"' || byte == b'\\' {
        push_byte(out, b'\\')?;
    }
    push_byte(out, byte)
}

/// Appends an IRI in angle brackets.
#[tactic(auto, unfolding(crate::specs::Text::iri_text))]
pub fn push_iri(out: &mut Vec<u8>, iri: &[u8]) -> Result<(), NoMemory>
    ensures { OnOk result (out.new.items ≡ out.old.items ++ spec.iri_text iri.now) }
{
    push_byte(out, b'<')?;
    push_bytes(out, iri)?;
    push_byte(out, b'>')
}

/// Appends a number.
fn push_number(out: &mut Vec<u8>, n: u32) -> Result<(), NoMemory>
    ensures { OnOk result (out.new.items ≡ out.old.items ++ decimal n) }
{
    let mut digits = Buffer::new();
    out.extend_from_slice(digits.format(n).as_bytes())?;
    Ok(())
}

/// Appends a space, but before the first.
#[tactic(auto, unfolding(crate::specs::inner::Joined::gap))]
fn push_gap(out: &mut Vec<u8>, is_first: bool) -> Result<(), NoMemory>
    ensures { OnOk result (out.new.items ≡ out.old.items ++ gap is_first) }
{
    if !is_first {
        out.push(b' ')?;
    }
    Ok(())
}

/// Appends a word and its bracket.
pub fn push_open(out: &mut Vec<u8>, word: &[u8]) -> Result<(), NoMemory>
    ensures { OnOk result (out.new.items ≡ out.old.items ++ (word.now ++ codes "(")) }
{
    push_bytes(out, word)?;
    push_byte(out, b'(')
}

/// Appends bytes as they stand.
pub fn push_bytes(out: &mut Vec<u8>, bytes: &[u8]) -> Result<(), NoMemory>
    ensures { OnOk result (out.new.items ≡ out.old.items ++ bytes.now) }
{
    out.extend_from_slice(bytes)?;
    Ok(())
}

/// Appends one byte.
pub fn push_byte(out: &mut Vec<u8>, byte: u8) -> Result<(), NoMemory>
    ensures { OnOk result (out.new.items ≡ out.old.items ++ byte ∷ []) }
{
    out.push(byte)?;
    Ok(())
}
