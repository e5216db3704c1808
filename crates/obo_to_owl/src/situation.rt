//! What a document says of its frames: which are annotation properties, and whose groups have a misfit.
ghost use Rattle.std.specs.Prelude.{◌≡◌, ◌&&◌, ℕ, IfOk, List};
ghost use Rattle.obo_frames.specs.Framed.{unlined};
ghost use Rattle.obo_statements.specs.Groups.{group_meant, intersection, union};
ghost use Rattle.obo_to_owl.specs.inner.Known.{among, has, has_misfit, is_metadata_clause};

use crate::misfit::{has_tag, is_misfit, is_of_group, is_truth};
use crate::rows::Row;
use crate::sets::add;
use hash_key::HashKey;
use indexmap::IndexSet;
use obo_frames::Placed;
use obo_statements::Group;
use obo_tags::FrameKind;
use rel_io::{Bytes, Iri, NoMemory};
use std::alloc::Global;

/// What a document says of its frames.
#[derive(Drop)]
pub struct Situation {
    /// The name of the ontology, if it has one.
    pub name: Option<Bytes>,
    /// The IRIs of annotation properties.
    pub metadata: IndexSet<Iri, HashKey>,
    /// The IRIs of Terms whose intersection has a misfit.
    pub intersections: IndexSet<Iri, HashKey>,
    /// The IRIs of Terms whose union has a misfit.
    pub unions: IndexSet<Iri, HashKey>,
}

impl Situation {
    /// The key with which the tables of a translation hash.
    pub fn hash_key(&self) -> HashKey {
        *self.metadata.hasher()
    }
}

/// What the clauses of a document say of its frames.
pub fn situation_of(
    alloc: Global,
    hash_key: HashKey,
    name: Option<Bytes>,
    rows: &[Row],
) -> Result<Situation, NoMemory>
    ensures name { IfOk result (λ s. s.name ≡ name) }
    ensures metadata { IfOk result (λ s. (x : List ℕ) → has s.metadata x ≡ among is_metadata_clause x rows.now) }
    ensures intersections { IfOk result
        (λ s. (x : List ℕ) → has s.intersections x ≡ among (has_misfit intersection) x rows.now) }
    ensures unions { IfOk result (λ s. (x : List ℕ) → has s.unions x ≡ among (has_misfit union) x rows.now) }
{
    let metadata = metadata_of(alloc, hash_key, rows)?;
    let intersections = broken_of(alloc, hash_key, rows, Group::Intersection)?;
    let unions = broken_of(alloc, hash_key, rows, Group::Union)?;
    Ok(Situation {
        name,
        metadata,
        intersections,
        unions,
    })
}

/// The IRIs of annotation properties.
fn metadata_of(
    alloc: Global,
    hash_key: HashKey,
    rows: &[Row],
) -> Result<IndexSet<Iri, HashKey>, NoMemory>
    ensures { IfOk result (λ set. (x : List ℕ) → has set x ≡ among is_metadata_clause x rows.now) }
{
    let mut metadata = IndexSet::with_hasher(alloc, hash_key);
    for row in rows {
        if is_metadata_clause(row.placed) {
            add(alloc, &mut metadata, row.iri)?;
        }
    }
    Ok(metadata)
}

/// Whether the clause says that its Typedef is an annotation property.
fn is_metadata_clause(one: &Placed) -> bool
    ensures { result ≡ is_metadata_clause (unlined one.now) }
{
    matches!(one.frame, FrameKind::Typedef)
        && has_tag(b"is_metadata_tag", one)
        && is_truth(true, &one.clause.value)
}

/// The IRIs of Terms whose group of this kind has a misfit.
fn broken_of(
    alloc: Global,
    hash_key: HashKey,
    rows: &[Row],
    group: Group,
) -> Result<IndexSet<Iri, HashKey>, NoMemory>
    ensures { IfOk result
        (λ set. (x : List ℕ) → has set x ≡ among (has_misfit (group_meant group)) x rows.now) }
{
    let mut broken = IndexSet::with_hasher(alloc, hash_key);
    for row in rows {
        if is_of_group(group, row.placed) && is_misfit(row.placed) {
            add(alloc, &mut broken, row.iri)?;
        }
    }
    Ok(broken)
}
