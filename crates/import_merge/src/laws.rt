//! What merging amounts to. Each law is the contract of a function that does nothing.
ghost use Rattle.import_merge.specs.Laws.{FilesDecide, OrderIsFree};

use owl_ontology::Ontology;

/// The files decide the axioms of their ontology, and where each comes from.
pub fn files_decide(one: &Ontology, other: &Ontology)
    ensures { FilesDecide one.now other.now }
{}

/// In another order files come to the same axioms, where the first ones agree on the name of the ontology and on the notes
/// about it.
pub fn order_is_free(one: &Ontology, other: &Ontology)
    ensures { OrderIsFree one.now other.now }
{}
