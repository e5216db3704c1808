//! What of a document says no axiom, and is kept.
ghost use Rattle.std.specs.Prelude.{◌≡◌, ◌++◌, IfOk, OnOk, map};
ghost use Rattle.obo_clause.specs.Spelled.{CanBeSpelled};
ghost use Rattle.obo_frames.specs.Framed.{unlined};
ghost use Rattle.obo_mapping.specs.Documents as documents;
ghost use Rattle.obo_canonical.specs.inner.Settled as spec;

use crate::settled::{as_kept, is_header};
use obo_frames::{Document, Placed};
use rel_io::{Bytes, NoMemory};
use std::alloc::Global;

/// What is kept of the document, in an ontology of this name, where it is said of each clause whether it is not translated.
pub fn kept(
    alloc: Global,
    space: &Bytes,
    document: &Document,
    untranslated: &[bool],
) -> Result<Vec<Placed>, NoMemory>
    requires { untranslated.now ≡
        map (λ one. documents.is_untranslatable (map unlined document.now) (unlined one)) document.now }
    ensures { IfOk result (λ made. map unlined made.items ≡
        spec.all_kept space.now (documents.is_untranslatable (map unlined document.now)) (map unlined document.now)) }
{
    let mut made = Vec::new(alloc);
    for at in 0..document.len() {
        push_kept(alloc, space, document.get(at), untranslated[at], &mut made)?;
    }
    Ok(made)
}

/// Appends what is kept of a clause.
fn push_kept(
    alloc: Global,
    space: &Bytes,
    one: &Placed,
    is_untranslatable: bool,
    made: &mut Vec<Placed>,
) -> Result<(), NoMemory>
    requires { CanBeSpelled one.now.clause }
    ensures { OnOk result (map unlined made.new.items ≡
        map unlined made.old.items ++ spec.kept_of space.now is_untranslatable (unlined one.now)) }
{
    if (is_import(one) || is_untranslatable) && !is_said_elsewhere(one) {
        let kept = as_kept(alloc, space, one)?;
        made.push(kept)?;
    }
    Ok(())
}

/// Whether the clause has the tag.
pub fn has_tag(tag: &[u8], one: &Placed) -> bool
    ensures { result ≡ documents.has_tag tag.now (unlined one.now) }
{
    one.clause.tag.as_slice() == tag
}

/// Whether the clause names a file that is merged.
fn is_import(one: &Placed) -> bool
    ensures { result ≡ documents.is_import (unlined one.now) }
{
    is_header(one) && has_tag(b"import", one) && !one.clause.is_foreign()
}

/// Whether the normal form says the clause by another one.
fn is_said_elsewhere(one: &Placed) -> bool
    ensures { result ≡ documents.is_said_elsewhere (unlined one.now) }
{
    !one.clause.is_foreign() && (has_tag(b"is_metadata_tag", one) || is_of_header(one))
}

/// Whether the clause is one that the header of the normal form has anew.
fn is_of_header(one: &Placed) -> bool
    ensures { result ≡ spec.is_of_header (unlined one.now) }
{
    is_header(one) && (has_tag(b"format-version", one) || has_tag(b"ontology", one))
}
