//! `norm`: the normal form of a document.
ghost use Rattle.std.specs.Prelude.{◌≡◌, IfOk, map};
ghost use Rattle.text_sets.specs.Sets.{SameMembers};
ghost use Rattle.obo_frames.specs.Framed.{unlined};
ghost use Rattle.obo_frames.specs.Naming as naming;
ghost use Rattle.obo_notes.specs.Context.{writing_in};
ghost use Rattle.obo_mapping.specs.Documents as documents;

use crate::header::header;
use crate::kept::kept;
use hash_key::HashKey;
use iri_map::name_or_temp;
use obo_frames::{Document, Placed, ontology_name};
use obo_spelling::spelled;
use obo_to_owl::{translate, untranslated};
use rel_io::{Bytes, NoMemory};
use std::alloc::Global;

/// The normal form of the document: its header, what of it says no axiom, and the clauses that say its axioms. The order of
/// its clauses means nothing, and no line is given to them. It takes time in proportion to the document, but for sorts.
pub fn norm(alloc: Global, hash_key: HashKey, document: &Document) -> Result<Document, NoMemory>
    ensures exact { IfOk result (λ made. SameMembers (map unlined made) (documents.norm (map unlined document.now))) }
{
    // The length tells what every document keeps.
    let _count = document.len();
    let placed = clauses_of(alloc, hash_key, document)?;
    Ok(Document::of(placed))
}

/// The clauses of the normal form.
fn clauses_of(
    alloc: Global,
    hash_key: HashKey,
    document: &Document,
) -> Result<Vec<Placed>, NoMemory>
    ensures { IfOk result (λ made. SameMembers (map unlined made.items) (documents.norm (map unlined document.now))) }
{
    let mut placed = header(alloc, document.as_slice())?;
    let mut kept = kept_clauses(alloc, hash_key, document)?;
    placed.append(&mut kept)?;
    let mut spelled = spelled_clauses(alloc, hash_key, document)?;
    placed.append(&mut spelled)?;
    Ok(placed)
}

/// The clauses that say no axiom.
fn kept_clauses(
    alloc: Global,
    hash_key: HashKey,
    document: &Document,
) -> Result<Vec<Placed>, NoMemory>
    ensures { IfOk result (λ made. map unlined made.items ≡ documents.kept (map unlined document.now)) }
{
    let space = space_of(alloc, document)?;
    let untranslated = untranslated(alloc, hash_key, document)?;
    kept(alloc, &space, document, untranslated.as_slice())
}

/// The name in which ids get their IRIs.
fn space_of(alloc: Global, document: &Document) -> Result<Bytes, NoMemory>
    ensures { IfOk result (λ space. space ≡ naming.space_of (map unlined document.now)) }
{
    let name = ontology_name(alloc, document)?;
    name_or_temp(alloc, name.as_ref())
}

/// The clauses that say the axioms.
fn spelled_clauses(
    alloc: Global,
    hash_key: HashKey,
    document: &Document,
) -> Result<Vec<Placed>, NoMemory>
    ensures { IfOk result (λ made. SameMembers (map unlined made.items)
        (documents.spelled (writing_in (documents.space_of (map unlined document.now))) (documents.owl (map unlined document.now)))) }
{
    let translated = translate(alloc, hash_key, document, 0)?;
    let spelling = spelled(alloc, &translated.ontology)?;
    Ok(spelling.placed)
}
