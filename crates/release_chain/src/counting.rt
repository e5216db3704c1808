//! How many axioms there are, by what they say.
ghost use Rattle.std.specs.Prelude.{◌≡◌};
ghost use Rattle.owl_ontology.specs.Ontology.{axioms_of};
ghost use Rattle.release_chain.specs.Counts.{counts_of};
ghost use Rattle.release_chain.specs.inner.Counting.{HaveRoom, counted};

use owl_axioms::Body;
use owl_ontology::Ontology;
use release_report::Counts;

/// How many axioms there are, by what they say.
pub fn counts_of(ontology: &Ontology) -> Counts
    ensures { result ≡ counts_of (axioms_of ontology.now.entries) }
{
    let mut counts = Counts {
        logical: 0,
        declared: 0,
        notes: 0,
    };
    for at in 0..ontology.len() {
        counts = counted(counts, &ontology.get(at).body);
    }
    counts
}

/// The counts with one axiom more.
fn counted(counts: Counts, body: &Body) -> Counts
    requires { HaveRoom counts }
    ensures { result ≡ counted counts body.now }
{
    match body {
        Body::Declaration(_) => Counts {
            declared: counts.declared + 1,
            ..counts
        },
        Body::Note(..) | Body::OntologyNote(..) => Counts {
            notes: counts.notes + 1,
            ..counts
        },
        _ => Counts {
            logical: counts.logical + 1,
            ..counts
        },
    }
}
