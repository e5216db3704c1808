//! `document_of`: the document of the axioms of an ontology, where no two of them need one place.
ghost use Rattle.std.specs.Prelude.{◌≡◌, ◌∷◌, [], IfOk, map, codes};
ghost use Rattle.std.specs.Option.{option_copied, option_to_list};
ghost use Rattle.obo_tags.specs.declared.kind.FrameKind.TheVariants as kinds;
ghost use Rattle.obo_clause.specs.declared.clause.Value.{Value};
ghost use Rattle.obo_frames.specs.Framed.{framed, unlined};
ghost use Rattle.owl_ontology.specs.Ontology.{axioms_of};
ghost use Rattle.obo_mapping.specs.Back.{IsSpellable, IsTold, back, writing_of};
ghost use Rattle.obo_mapping.specs.Documents.{header_with};

use obo_clause::{Clause, Value};
use obo_frames::{Document, Placed};
use obo_spelling::spelled;
use obo_tags::FrameKind;
use owl_ontology::Ontology;
use rel_io::{Bytes, Dup, Items, NoMemory};
use std::alloc::Global;

/// The header, and the clauses that say the axioms, axiom by axiom. No line is given to them. It takes time in proportion
/// to the ontology, but for the sorts of the parts of axioms.
pub fn document_of(alloc: Global, ontology: &Ontology) -> Result<Document, NoMemory>
    requires spellable { IsSpellable ontology.now.name (axioms_of ontology.now.entries) }
    requires told { IsTold (writing_of ontology.now.name) (axioms_of ontology.now.entries) }
    ensures exact { IfOk result (λ document. map unlined document ≡
        back ontology.now.name (axioms_of ontology.now.entries)) }
{
    let placed = placed_clauses(alloc, ontology)?;
    Ok(Document::of(placed))
}

/// The clauses of the document.
#[tactic(auto, unfolding(obo_mapping::specs::Back::back))]
fn placed_clauses(alloc: Global, ontology: &Ontology) -> Result<Vec<Placed>, NoMemory>
    ensures { IfOk result (λ placed. map unlined placed.items ≡
        back ontology.now.name (axioms_of ontology.now.entries)) }
{
    let mut placed = header(alloc, ontology.name())?;
    let made = spelled(alloc, ontology)?;
    let mut clauses = made.placed;
    placed.append(&mut clauses)?;
    Ok(placed)
}

/// The clauses of the header.
fn header(alloc: Global, name: Option<&Bytes>) -> Result<Vec<Placed>, NoMemory>
    ensures { IfOk result (λ placed. map unlined placed.items ≡ header_with (option_to_list (option_copied name.entry))) }
{
    let version = Bytes::from_slice(alloc, b"1.4")?;
    let format = header_clause(alloc, b"format-version", Value::Text(version))?;
    let mut placed = Vec::new(alloc);
    placed.push(format)?;
    if let Some(name) = name {
        let name = name.copy(alloc)?;
        let ontology = header_clause(alloc, b"ontology", Value::Id(name))?;
        placed.push(ontology)?;
    }
    Ok(placed)
}

/// A clause of the header.
fn header_clause(alloc: Global, tag: &[u8], value: Value) -> Result<Placed, NoMemory>
    ensures { IfOk result (λ one. unlined one ≡
        framed kinds.Header [] (record { tag = tag.now; value = value; qualifiers = [] })) }
{
    match Bytes::from_slice(alloc, tag) {
        Ok(tag) => Ok(Placed {
            frame: FrameKind::Header,
            id: Bytes::from_vec(Vec::new(alloc)),
            line: 0,
            clause: Clause {
                tag,
                value,
                qualifiers: Items::from_vec(Vec::new(alloc)),
            },
        }),
        Err(NoMemory) => {
            drop(value);
            Err(NoMemory)
        }
    }
}
