//! The whole text.
ghost use Rattle.std.specs.Prelude.{◌≡◌, ◌++◌, IfOk, OnOk, codes};
ghost use Rattle.std.specs.Option.{option_copied};
ghost use Rattle.owl_ontology.specs.Ontology.{axioms_of};
ghost use Rattle.ofn_writer.specs.Text as spec;
ghost use Rattle.ofn_writer.specs.inner.Declared.{declared_scope};

use crate::declared::{Declared, declared_names};
use crate::lines::{push_line, push_lines};
use iri_map::ontology_iri;
use owl_ontology::Ontology;
use rel_io::{Bytes, NoMemory};
use std::alloc::Global;

/// The functional-style text of an ontology. It takes the time of a sort of its lines.
pub fn ofn_text(alloc: Global, ontology: &Ontology) -> Result<Bytes, NoMemory>
    ensures { IfOk result (λ text. text ≡ spec.ofn_text ontology.now) }
{
    let declared = declared_names(alloc, ontology)?;
    text_with(alloc, ontology, &declared)
}

/// The text, where this is declared.
#[tactic(auto, unfolding(crate::specs::Text::text_with))]
fn text_with(alloc: Global, ontology: &Ontology, declared: &Declared) -> Result<Bytes, NoMemory>
    ensures { IfOk result (λ text. text ≡ spec.text_with (declared_scope declared.now) ontology.now.name (axioms_of ontology.now.entries)) }
{
    let mut text = Vec::new(alloc);
    push_front(alloc, &mut text, ontology.name())?;
    push_lines(alloc, &mut text, ontology, declared, true)?;
    push_lines(alloc, &mut text, ontology, declared, false)?;
    push_line(&mut text, b")")?;
    Ok(Bytes::from_vec(text))
}

/// Appends the first line.
fn push_front(alloc: Global, out: &mut Vec<u8>, name: Option<&Bytes>) -> Result<(), NoMemory>
    ensures { OnOk result (out.new.items ≡ out.old.items ++ spec.line (codes "Ontology(" ++ spec.name_text (option_copied name.entry))) }
{
    out.extend_from_slice(b"Ontology(")?;
    push_name(alloc, out, name)?;
    out.push(b'\n')?;
    Ok(())
}

/// Appends the IRI of the ontology, where it has a name.
#[tactic(auto, unfolding(crate::specs::Text::name_text, owl_axioms::specs::Text::iri_text))]
fn push_name(alloc: Global, out: &mut Vec<u8>, name: Option<&Bytes>) -> Result<(), NoMemory>
    ensures { OnOk result (out.new.items ≡ out.old.items ++ spec.name_text (option_copied name.entry)) }
{
    if let Some(name) = name {
        let iri = ontology_iri(alloc, name)?;
        out.push(b'<')?;
        out.extend_from_slice(iri.as_slice())?;
        out.push(b'>')?;
    }
    Ok(())
}
