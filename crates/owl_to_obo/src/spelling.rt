//! `spellable`: whether a document says the axioms of an ontology.
ghost use Rattle.std.specs.Prelude.{◌≡◌, IfOk};
ghost use Rattle.owl_ontology.specs.Ontology.{axioms_of};
ghost use Rattle.obo_mapping.specs.Back as spec;

use obo_spelling::spelled;
use owl_ontology::Ontology;
use rel_io::NoMemory;
use std::alloc::Global;

/// Whether each axiom has a form, and an entity in whose frame it may stand is declared. It takes time in proportion to the
/// ontology, but for the sorts of the parts of axioms.
pub fn spellable(alloc: Global, ontology: &Ontology) -> Result<bool, NoMemory>
    ensures exact { IfOk result (λ is. is ≡ spec.spellable ontology.now.name (axioms_of ontology.now.entries)) }
{
    let made = spelled(alloc, ontology)?;
    Ok(made.is_whole)
}
