//! How a file joins the files before it.
ghost use Rattle.std.specs.Prelude.{◌≡◌, ◌<◌, [], ◌∷◌, IfOk, OnOk, false, length, true};
ghost use Rattle.owl_ontology.specs.Ontology.{entry_of};
ghost use Rattle.owl_axioms.specs.Proper.{IsProper};
ghost use Rattle.obo_to_owl.specs.Reports.{dropped};
ghost use Rattle.spelling_laws.specs.Laws.{is_ontology_note};
ghost use Rattle.import_merge.specs.inner.Joining.{Joins, KeepsSpelling, with_moved};

use obo_frames::Document;
use obo_to_owl::{Dropped, Translated, translate};
use owl_axioms::{Axiom, Body};
use owl_ontology::{Ontology, Origin};
use rel_io::{Items, NoMemory};
use std::alloc::Global;

/// Merges the file at a place of the list into the ontology of those before it, and answers its clauses that are not
/// translated. The ontology of the first file is taken over as it is, and the axioms of each other file are moved into it.
pub fn join(
    alloc: Global,
    ontology: &mut Ontology,
    document: &Document,
    place: u32,
) -> Result<Items<Dropped>, NoMemory>
    ensures joins { OnOk result (Joins place document.now ontology.old ontology.new) }
    ensures spelling { OnOk result (KeepsSpelling ontology.old ontology.new) }
    ensures dropped { IfOk result (λ reports. reports ≡ dropped document.now) }
{
    let _sound = document.len();
    let Translated {
        ontology: said,
        dropped,
    } = translate(alloc, ontology.hash_key(), document, place)?;
    if place == 0 {
        *ontology = said;
    } else {
        let _different = ontology.len();
        move_into(ontology, said)?;
    }
    Ok(dropped)
}

/// Moves the axioms of an ontology into another one, but for its notes about itself.
fn move_into(ontology: &mut Ontology, said: Ontology) -> Result<(), NoMemory>
    ensures { OnOk result (ontology.new ≡ with_moved ontology.old said.entries) }
{
    let mut said = said;
    'axioms: while move_last(ontology, &mut said)? {}
    Ok(())
}

/// Moves the last axiom, but for a note about the ontology, and says whether there was one.
fn move_last(ontology: &mut Ontology, said: &mut Ontology) -> Result<bool, NoMemory>
    ensures moves { OnOk result (with_moved ontology.new said.new.entries ≡ with_moved ontology.old said.old.entries) }
    ensures falls { IfOk result (λ moved. moved ≡ true → length said.new.entries < length said.old.entries) }
    ensures done { IfOk result (λ moved. moved ≡ false → said.new.entries ≡ []) }
{
    match said.pop() {
        Some((axiom, origin)) => {
            put(ontology, axiom, origin)?;
            Ok(true)
        }
        None => Ok(false),
    }
}

/// Adds an axiom, but for a note about the ontology.
fn put(ontology: &mut Ontology, said: Axiom, origin: Origin) -> Result<(), NoMemory>
    requires { IsProper said }
    ensures { OnOk result (ontology.new ≡ with_moved ontology.old (entry_of said origin ∷ [])) }
{
    if is_ontology_note(&said) {
        drop(said);
        return Ok(());
    }
    ontology.add(said, origin)?;
    Ok(())
}

/// Whether the axiom is a note about the ontology itself.
fn is_ontology_note(said: &Axiom) -> bool
    ensures { result ≡ is_ontology_note said.now }
{
    matches!(said.body, Body::OntologyNote(..))
}
