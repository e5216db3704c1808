//! `Given`: what a frame has of a tag that stands once, and the order of such.
ghost use Rattle.std.specs.Prelude.{◌≡◌, ◌++◌, IfOk, List, OnOk, codes, nat_eq, refl};
ghost use Rattle.std.specs.Cmp.{on_equiv, on_per, on_po, on_total, partial_equiv_from_equiv};
ghost use Rattle.std.specs.Cmp.Lexicographic.{lists_equiv, lists_ties, lists_total, nat_list_cmp_total, pointwise, slice_cmp, texts_ties};
ghost use Rattle.std.specs.List.{flat_map, join_by};
ghost use Rattle.std.specs.Option.{option_map};
ghost use Rattle.std.specs.Ordering.{as_partial_cmp, nat_cmp};
ghost use Rattle.std.proofs.lemmas.Cmp.{nat_list_eq_equiv};
ghost use Rattle.text_sets.specs.Sets.{AreTold};
ghost use Rattle.text_sets.specs.Sorted.{by_key, sorted_on, texts_cmp};
ghost use Rattle.obo_tags.specs.Table as table;
ghost use Rattle.obo_notes.specs.Context.{writing_in};
ghost use Rattle.owl_axioms.specs.declared.name.Name.{Name};
ghost use Rattle.obo_mapping.specs.TwoValues as spec;
ghost use Rattle.obo_text.specs.inner.RowOrder.{texts_lists_po};
ghost use Rattle.owl_to_obo.specs.Clashes.{given_meant};
ghost use Rattle.owl_to_obo.specs.inner.Clashing.{same_place};
ghost use Rattle.owl_to_obo.specs.inner.Order.{key_behind_id, key_behind_tag, key_of};

use clause_printer::{push_block, push_value};
use iri_map::id_of;
use obo_clause::Clause;
use obo_spelling::{Declared, frame_kind};
use obo_tags::{FrameKind, rank, tag_of};
use owl_axioms::Name;
use owl_ontology::Origin;
use rel_io::{Bytes, Dup, Iri, NoMemory};
use std::alloc::Global;
use std::cmp::Ordering;

/// What a frame has of a tag that stands once. It is compared by its frame, the place of its tag, its text and its origin.
#[derive(Drop)]
pub struct Given {
    /// The kind of the frame.
    pub frame: FrameKind,
    /// The id of the frame.
    pub id: Bytes,
    /// The IRI of its entity.
    pub iri: Iri,
    /// The tag.
    pub tag: Bytes,
    /// The value as it is printed, with its qualifiers.
    pub text: Bytes,
    /// Where the axiom comes from that gives it.
    pub origin: Origin,
}

impl PartialEq for Given {
    ghost eq = { λ one other. pointwise (pointwise nat_eq) (key_of one) (key_of other) };

    ghost laws = { on_per key_of (partial_equiv_from_equiv (lists_equiv nat_list_eq_equiv)) };

    fn eq(&self, other: &Given) -> bool {
        self.cmp(other).is_eq()
    }
}

impl Eq for Given {
    ghost laws = { on_equiv key_of (lists_equiv nat_list_eq_equiv) };
}

impl PartialOrd for Given {
    ghost partial_cmp = { as_partial_cmp (by_key texts_cmp key_of) };

    ghost laws = { on_po key_of texts_lists_po };

    fn partial_cmp(&self, other: &Given) -> Option<Ordering> {
        Some(self.cmp(other))
    }
}

impl Ord for Given {
    ghost cmp = { by_key texts_cmp key_of };

    ghost total = { on_total key_of (lists_total nat_list_cmp_total) };

    ghost matches_partial_cmp = { λ x y. refl };

    ghost matches_eq = { λ x y. lists_ties (slice_cmp nat_cmp) texts_ties (key_of x) (key_of y) };

    fn cmp(&self, other: &Given) -> Ordering {
        match kind_place(self.frame).cmp(&kind_place(other.frame)) {
            Ordering::Equal => match self.id.cmp(&other.id) {
                Ordering::Equal => behind_id(self, other),
                apart => apart,
            },
            apart => apart,
        }
    }
}

/// The order of two of one frame.
fn behind_id(one: &Given, other: &Given) -> Ordering
    ensures { result ≡ by_key texts_cmp key_behind_id one.now other.now }
{
    let place = tag_place(one.frame, one.tag.as_slice());
    match place.cmp(&tag_place(other.frame, other.tag.as_slice())) {
        Ordering::Equal => match one.tag.cmp(&other.tag) {
            Ordering::Equal => behind_tag(one, other),
            apart => apart,
        },
        apart => apart,
    }
}

/// The order of two of one frame and tag.
fn behind_tag(one: &Given, other: &Given) -> Ordering
    ensures { result ≡ by_key texts_cmp key_behind_tag one.now other.now }
{
    match one.text.cmp(&other.text) {
        Ordering::Equal => one.origin.cmp(&other.origin),
        apart => apart,
    }
}

/// The place of the frames of a kind.
fn kind_place(kind: FrameKind) -> u8
    ensures { result ≡ spec.rank kind }
{
    match kind {
        FrameKind::Header => 0,
        FrameKind::Term => 1,
        FrameKind::Typedef => 2,
        FrameKind::Instance => 3,
    }
}

/// The place of a tag among those of the kind.
fn tag_place(kind: FrameKind, tag: &[u8]) -> Option<u8>
    ensures { result ≡ table.place_of kind tag.now }
{
    match tag_of(tag) {
        Some(known) => rank(kind, known),
        None => None,
    }
}

impl Dup for Given {
    fn copy(&self, alloc: Global) -> Result<Given, NoMemory> {
        let id = self.id.copy(alloc)?;
        let iri = self.iri.copy(alloc)?;
        let tag = self.tag.copy(alloc)?;
        let text = self.text.copy(alloc)?;
        Ok(Given {
            frame: self.frame,
            id,
            iri,
            tag,
            text,
            origin: self.origin,
        })
    }
}

/// Whether both are of one tag of one frame.
pub fn same_place(one: &Given, other: &Given) -> bool
    ensures { result ≡ same_place (given_meant one.now) (given_meant other.now) }
{
    kind_place(one.frame) == kind_place(other.frame) && one.id == other.id && one.tag == other.tag
}

/// What the frame of an entity has of a tag, where it has an id.
pub fn give(
    alloc: Global,
    space: &Bytes,
    name: &Name,
    tag: &[u8],
    text: &Bytes,
    origin: Origin,
) -> Result<Option<Given>, NoMemory>
    ensures { IfOk result (λ found. (declared : List Name) → option_map given_meant found ≡ spec.given (writing_in space.now) declared name.now tag.now text.now origin) }
{
    let Some(id) = id_of(alloc, &name.iri, space)? else {
        return Ok(None);
    };
    let iri = name.iri.copy(alloc)?;
    let tag = Bytes::from_slice(alloc, tag)?;
    let text = text.copy(alloc)?;
    Ok(Some(Given {
        frame: frame_kind(name.kind),
        id,
        iri,
        tag,
        text,
        origin,
    }))
}

/// Appends a value as it is printed, and behind it the block of qualifiers.
fn push_printed(out: &mut Vec<u8>, clause: &Clause) -> Result<(), NoMemory>
    ensures { OnOk result (out.new.items ≡ out.old.items ++ spec.printed clause.now) }
{
    push_value(out, &clause.value)?;
    if clause.qualifiers.as_slice().is_empty() {
        return Ok(());
    }
    out.push(b' ')?;
    push_block(out, clause.qualifiers.as_slice())
}

/// A value as it is printed, and behind it the block of qualifiers.
pub fn printed(alloc: Global, clause: &Clause) -> Result<Bytes, NoMemory>
    ensures { IfOk result (λ text. text ≡ spec.printed clause.now) }
{
    let mut out = Vec::new(alloc);
    push_printed(&mut out, clause)?;
    Ok(Bytes::from_vec(out))
}

/// The values of clauses as they are printed, with a comma between two.
pub fn all_printed(alloc: Global, clauses: &[Clause]) -> Result<Bytes, NoMemory>
    ensures { IfOk result (λ text. text ≡ join_by spec.printed (codes ", ") clauses.now) }
{
    let mut out = Vec::new(alloc);
    if let Some((first, others)) = clauses.split_first() {
        push_printed(&mut out, first)?;
        push_others(&mut out, others)?;
    }
    Ok(Bytes::from_vec(out))
}

/// Appends the values behind the first one, each with a comma before it.
fn push_others(out: &mut Vec<u8>, clauses: &[Clause]) -> Result<(), NoMemory>
    ensures { OnOk result (out.new.items ≡ out.old.items ++ flat_map (λ clause. codes ", " ++ spec.printed clause) clauses.now) }
{
    for clause in clauses {
        push_other(out, clause)?;
    }
    Ok(())
}

/// Appends a value behind another one.
fn push_other(out: &mut Vec<u8>, clause: &Clause) -> Result<(), NoMemory>
    ensures { OnOk result (out.new.items ≡ out.old.items ++ (codes ", " ++ spec.printed clause.now)) }
{
    out.extend_from_slice(b", ")?;
    push_printed(out, clause)
}

/// All in their order, each once, where equal parts to compare by stand in equal ones.
pub fn sorted_given(all: Vec<Given>) -> Vec<Given>
    ensures { AreTold key_of all.items → result.items ≡ sorted_on texts_cmp key_of all.items }
{
    let mut all = all;
    all.sort_unstable();
    all.dedup();
    all
}
