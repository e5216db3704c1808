//! What an extract leaves. Each law is the contract of a function that does nothing.
ghost use Rattle.extract_step.specs.Laws.{ExtractedIsPart, ExtractingKeeps};

use chain_words::Method;
use owl_ontology::Ontology;
use seed_list::Seed;

/// What an extract leaves is a part of what was there, in its order and with its origins, and the name stays.
pub fn extracted_is_part(ontology: &Ontology, method: Method, seed: &Seed)
    ensures { ExtractedIsPart method seed.now ontology.now }
{}

/// What an extract leaves keeps what was there over the seed and the names of the chosen part, and so over the seed.
pub fn extracting_keeps(ontology: &Ontology, method: Method, seed: &Seed)
    ensures { ExtractingKeeps method seed.now ontology.now }
{}
