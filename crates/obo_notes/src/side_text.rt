//! The functional-style text of annotations.
ghost use Rattle.std.specs.Prelude.{◌≡◌, ◌∷◌, ◌++◌, ◌||◌, ◌==◌, [], IfOk, OnOk, codes, if◌then◌else◌};
ghost use Rattle.std.specs.List.{flat_map};
ghost use Rattle.owl_axioms.specs.Text as spec;
ghost use Rattle.obo_notes.specs.inner.Texts.{behind_label, escaped_byte, label_begin, label_front};

use owl_axioms::{NoteValue, Side};
use rel_io::{Bytes, NoMemory};

/// Appends an annotation of an axiom.
pub fn push_side(out: &mut Vec<u8>, side: &Side) -> Result<(), NoMemory>
    ensures { OnOk result (out.new.items ≡ out.old.items ++ spec.side_text side.now) }
{
    push_parts(out, side)
}

/// Appends the parts of an annotation.
fn push_parts(out: &mut Vec<u8>, side: &Side) -> Result<(), NoMemory>
    ensures { OnOk result (out.new.items ≡ out.old.items
        ++ (codes "Annotation(" ++ (label_front side.now.label ++ (behind_label side.now ++ codes ")")))) }
{
    push_bytes(out, b"Annotation(")?;
    push_label(out, &side.label)?;
    push_behind_label(out, side)?;
    push_bytes(out, b")")
}

/// Appends the label of an annotation and a space, where there is one.
fn push_label(out: &mut Vec<u8>, label: &Option<Bytes>) -> Result<(), NoMemory>
    ensures { OnOk result (out.new.items ≡ out.old.items ++ label_front label.now) }
{
    match label {
        Some(label) => push_some_label(out, label.as_slice()),
        None => Ok(()),
    }
}

/// Appends a label of an annotation and a space.
fn push_some_label(out: &mut Vec<u8>, label: &[u8]) -> Result<(), NoMemory>
    ensures { OnOk result (out.new.items ≡ out.old.items ++ (label_begin ++ (spec.quoted label.now ++ codes ") "))) }
{
    push_label_begin(out)?;
    push_quoted(out, label)?;
    push_bytes(out, b") ")
}

/// Appends what stands before a label.
#[tactic(auto, unfolding(owl_axioms::specs::Text::iri_text, owl_axioms::specs::Vocabulary::rdfs_label))]
fn push_label_begin(out: &mut Vec<u8>) -> Result<(), NoMemory>
    ensures { OnOk result (out.new.items ≡ out.old.items ++ label_begin) }
{
    push_bytes(
        out,
        b"Annotation(<http://www.w3.org/2000/01/rdf-schema#label> ",
    )
}

/// Appends what stands behind the label of an annotation.
fn push_behind_label(out: &mut Vec<u8>, side: &Side) -> Result<(), NoMemory>
    ensures { OnOk result (out.new.items ≡ out.old.items ++ behind_label side.now) }
{
    push_iri(out, side.property.as_slice())?;
    push_bytes(out, b" ")?;
    push_value(out, &side.value)
}

/// Appends the value of an annotation.
#[tactic(auto, unfolding(owl_axioms::specs::Text::value_text))]
fn push_value(out: &mut Vec<u8>, value: &NoteValue) -> Result<(), NoMemory>
    ensures { OnOk result (out.new.items ≡ out.old.items ++ spec.value_text value.now) }
{
    match value {
        NoteValue::Text(text) => push_quoted(out, text.as_slice()),
        NoteValue::Typed(text, datatype) => push_typed(out, text.as_slice(), datatype.as_slice()),
        NoteValue::Link(iri) => push_iri(out, iri.as_slice()),
    }
}

/// Appends a text of a datatype.
fn push_typed(out: &mut Vec<u8>, text: &[u8], datatype: &[u8]) -> Result<(), NoMemory>
    ensures { OnOk result (out.new.items ≡ out.old.items
        ++ (spec.quoted text.now ++ codes "^^" ++ spec.iri_text datatype.now)) }
{
    push_quoted(out, text)?;
    push_bytes(out, b"^^")?;
    push_iri(out, datatype)
}

/// Appends a text in quotes.
#[tactic(auto, unfolding(owl_axioms::specs::Text::quoted))]
fn push_quoted(out: &mut Vec<u8>, text: &[u8]) -> Result<(), NoMemory>
    ensures { OnOk result (out.new.items ≡ out.old.items ++ spec.quoted text.now) }
{
    push_bytes(out, b"\"")?;
    push_escaped(out, text)?;
    push_bytes(out, b"\"")
}

/// Appends a text with a backslash before each quote and backslash.
fn push_escaped(out: &mut Vec<u8>, text: &[u8]) -> Result<(), NoMemory>
    ensures { OnOk result (out.new.items ≡ out.old.items ++ flat_map escaped_byte text.now) }
{
    for byte in text {
        push_escaped_byte(out, *byte)?;
    }
    Ok(())
}

/// Appends a byte, behind a backslash where it needs one.
fn push_escaped_byte(out: &mut Vec<u8>, byte: u8) -> Result<(), NoMemory>
    ensures { OnOk result (out.new.items ≡ out.old.items ++ escaped_byte byte) }
{
    if byte == b'"' || byte == b'\\' {
        out.push(b'\\')?;
    }
    out.push(byte)?;
    Ok(())
}

/// Appends an IRI in angle brackets.
#[tactic(auto, unfolding(owl_axioms::specs::Text::iri_text))]
fn push_iri(out: &mut Vec<u8>, iri: &[u8]) -> Result<(), NoMemory>
    ensures { OnOk result (out.new.items ≡ out.old.items ++ spec.iri_text iri.now) }
{
    push_bytes(out, b"<")?;
    push_bytes(out, iri)?;
    push_bytes(out, b">")
}

/// Appends bytes as they stand.
fn push_bytes(out: &mut Vec<u8>, bytes: &[u8]) -> Result<(), NoMemory>
    ensures { OnOk result (out.new.items ≡ out.old.items ++ bytes.now) }
{
    out.extend_from_slice(bytes)?;
    Ok(())
}
