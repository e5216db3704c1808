//! `untranslated`: which clauses of a document have no axiom, and are reported.
ghost use Rattle.std.specs.Prelude.{◌≡◌, IfOk, map};
ghost use Rattle.iri_map.specs.Ontology.{name_or_temp};
ghost use Rattle.obo_frames.specs.Framed.{unlined};
ghost use Rattle.obo_mapping.specs.Documents.{is_untranslatable, name_of};
ghost use Rattle.obo_to_owl.specs.inner.Left.{is_left};

use crate::parted::is_left;
use crate::rows::{Row, iris_of, rows_of};
use crate::situation::{Situation, situation_of};
use hash_key::HashKey;
use iri_map::name_or_temp;
use obo_frames::{Document, Placed, ontology_name};
use rel_io::{Bytes, NoMemory};
use std::alloc::Global;

/// Of each clause of the document, in their order, whether it is not translated. It takes time in proportion to the
/// document.
pub fn untranslated(
    alloc: Global,
    hash_key: HashKey,
    document: &Document,
) -> Result<Vec<bool>, NoMemory>
    ensures { IfOk result (λ flags. flags.items ≡
        map (λ one. is_untranslatable (map unlined document.now) (unlined one)) document.now) }
{
    let name = ontology_name(alloc, document)?;
    let space = name_or_temp(alloc, name.as_ref())?;
    flags_in(alloc, hash_key, name, &space, document.as_slice())
}

/// The same in an ontology of this name.
fn flags_in(
    alloc: Global,
    hash_key: HashKey,
    name: Option<Bytes>,
    space: &Bytes,
    placed: &[Placed],
) -> Result<Vec<bool>, NoMemory>
    requires named { name ≡ name_of (map unlined placed.now) }
    requires spaced { space.now ≡ name_or_temp name }
    ensures { IfOk result (λ flags. flags.items ≡
        map (λ one. is_untranslatable (map unlined placed.now) (unlined one)) placed.now) }
{
    let iris = iris_of(alloc, space, placed)?;
    let rows = rows_of(alloc, space, placed, &iris)?;
    let situation = situation_of(alloc, hash_key, name, rows.as_slice())?;
    each_flag(alloc, &situation, rows.as_slice())
}

/// Of each clause whether it is left out.
fn each_flag(alloc: Global, situation: &Situation, rows: &[Row]) -> Result<Vec<bool>, NoMemory>
    ensures { IfOk result (λ flags. flags.items ≡ map (is_left situation.now) rows.now) }
{
    let mut flags = Vec::with_capacity(alloc, rows.len())?;
    for row in rows {
        let is_left = is_left(alloc, situation, row)?;
        flags.push(is_left)?;
    }
    Ok(flags)
}
