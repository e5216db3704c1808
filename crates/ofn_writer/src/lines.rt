//! The lines of axioms: printed into one buffer, cut out of it, sorted, and appended.
ghost use Rattle.std.specs.Prelude.{◌≡◌, ◌++◌, ◌∷◌, [], IfOk, OnOk, length, map};
ghost use Rattle.std.specs.List.{flat_map};
ghost use Rattle.owl_ontology.specs.Ontology.{axioms_of};
ghost use Rattle.ofn_writer.specs.Sorted.{sorted};
ghost use Rattle.ofn_writer.specs.Text as spec;
ghost use Rattle.ofn_writer.specs.inner.Declared.{declared_scope};
ghost use Rattle.ofn_writer.specs.inner.Pieces.{AreIn, Fit, pieces};

use crate::declared::Declared;
use crate::kind::push_told;
use owl_axioms::{Axiom, Body};
use owl_ontology::Ontology;
use rel_io::NoMemory;
use std::alloc::Global;

/// Texts one behind the other, and their lengths.
#[derive(Drop)]
struct Printed {
    /// The texts.
    buffer: Vec<u8>,
    /// The length of each.
    lengths: Vec<usize>,
}

/// Appends the lines of the first part of the axioms, or of the second.
pub fn push_lines(
    alloc: Global,
    out: &mut Vec<u8>,
    ontology: &Ontology,
    declared: &Declared,
    first: bool,
) -> Result<(), NoMemory>
    ensures { OnOk result (out.new.items ≡ out.old.items ++ spec.axiom_lines (declared_scope declared.now) (spec.part first (axioms_of ontology.now.entries))) }
{
    let printed = print_part(alloc, ontology, declared, first)?;
    let lines = sorted_pieces(alloc, printed.buffer.as_slice(), printed.lengths.as_slice())?;
    // Each line has one byte behind its text.
    out.reserve_exact(printed.buffer.len().saturating_add(lines.len()))?;
    push_all(out, lines.as_slice())?;
    Ok(())
}

/// The texts of one part of the axioms.
fn print_part(
    alloc: Global,
    ontology: &Ontology,
    declared: &Declared,
    first: bool,
) -> Result<Printed, NoMemory>
    ensures { IfOk result (λ printed. AreIn (map (spec.told_text (declared_scope declared.now)) (spec.part first (axioms_of ontology.now.entries))) printed.buffer.items printed.lengths.items) }
{
    let mut buffer = Vec::new(alloc);
    let mut lengths = Vec::new(alloc);
    for at in 0..ontology.len() {
        let axiom = ontology.get(at);
        if is_in_part(&axiom.body, first) {
            push_text(alloc, &mut buffer, &mut lengths, axiom, declared)?;
        }
    }
    buffer.shrink_to_fit();
    lengths.shrink_to_fit();
    Ok(Printed { buffer, lengths })
}

/// Appends the text of an axiom, and its length.
fn push_text(
    alloc: Global,
    buffer: &mut Vec<u8>,
    lengths: &mut Vec<usize>,
    axiom: &Axiom,
    declared: &Declared,
) -> Result<(), NoMemory>
    ensures bytes { OnOk result (buffer.new.items ≡ buffer.old.items ++ spec.told_text (declared_scope declared.now) «axiom».now) }
    ensures lengths { OnOk result (lengths.new.items ≡ lengths.old.items ++ length (spec.told_text (declared_scope declared.now) «axiom».now) ∷ []) }
{
    let before = buffer.len();
    push_told(alloc, buffer, axiom, declared)?;
    lengths.push(buffer.len() - before)?;
    Ok(())
}

/// Whether what an axiom says stands in the first part, or in the second.
fn is_in_part(body: &Body, first: bool) -> bool
    ensures { result ≡ spec.is_in_part first body.now }
{
    if first {
        is_header(body)
    } else {
        !is_header(body)
    }
}

/// Whether it is a note about the ontology.
#[tactic(auto, unfolding(crate::specs::Text::is_header))]
fn is_header(body: &Body) -> bool
    ensures { result ≡ spec.is_header body.now }
{
    matches!(body, Body::OntologyNote(_, _))
}

/// The pieces of a buffer with these lengths, in the order of their bytes.
fn sorted_pieces<'a>(
    alloc: Global,
    buffer: &'a [u8],
    lengths: &[usize],
) -> Result<Vec<&'a [u8]>, NoMemory>
    requires { Fit buffer.now lengths.now }
    ensures { IfOk result (λ texts. map (λ text. text.now) texts.items ≡ sorted (pieces buffer.now lengths.now)) }
{
    let mut texts = pieces(alloc, buffer, lengths)?;
    texts.sort_unstable();
    Ok(texts)
}

/// The pieces of a buffer with these lengths.
fn pieces<'a>(alloc: Global, buffer: &'a [u8], lengths: &[usize]) -> Result<Vec<&'a [u8]>, NoMemory>
    requires { Fit buffer.now lengths.now }
    ensures { IfOk result (λ texts. map (λ text. text.now) texts.items ≡ pieces buffer.now lengths.now) }
{
    let mut texts = Vec::with_capacity(alloc, lengths.len())?;
    let mut rest = buffer;
    for length in lengths {
        let (text, others) = rest.split_at(*length);
        texts.push(text)?;
        rest = others;
    }
    Ok(texts)
}

/// Appends texts, each as a line.
fn push_all(out: &mut Vec<u8>, texts: &[&[u8]]) -> Result<(), NoMemory>
    ensures { OnOk result (out.new.items ≡ out.old.items ++ flat_map spec.line (map (λ text. text.now) texts.now)) }
{
    for text in texts {
        push_line(out, text)?;
    }
    Ok(())
}

/// Appends a line.
pub fn push_line(out: &mut Vec<u8>, text: &[u8]) -> Result<(), NoMemory>
    ensures { OnOk result (out.new.items ≡ out.old.items ++ spec.line text.now) }
{
    out.extend_from_slice(text)?;
    out.push(b'\n')?;
    Ok(())
}
