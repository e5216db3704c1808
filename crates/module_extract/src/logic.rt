//! Which axioms are logical.
ghost use Rattle.std.specs.Prelude.{◌≡◌, IfOk};
ghost use Rattle.module_extract.specs.Module.{logical_flags};
ghost use Rattle.owl_ontology.specs.Ontology.{axioms_of};
ghost use Rattle.owl_sem.specs.Models.{is_logical};

use owl_axioms::Body;
use owl_ontology::Ontology;
use rel_io::NoMemory;
use std::alloc::Global;

/// Whether models speak of what an axiom says.
#[tactic(auto, unfolding(owl_sem::specs::Models::is_logical))]
pub fn is_logical(body: &Body) -> bool
    ensures { result ≡ is_logical body.now }
{
    !matches!(
        body,
        Body::Declaration(_) | Body::Note(_, _, _) | Body::OntologyNote(_, _)
    )
}

/// The part of the logical axioms.
pub fn logical(alloc: Global, ontology: &Ontology) -> Result<Vec<bool>, NoMemory>
    ensures { IfOk result (λ flags. flags.items ≡ logical_flags (axioms_of ontology.now.entries)) }
{
    let mut flags = Vec::new(alloc);
    for at in 0..ontology.len() {
        flags.push(is_logical(&ontology.get(at).body))?;
    }
    Ok(flags)
}
