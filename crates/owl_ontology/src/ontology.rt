//! `Ontology`: a name and a list of proper axioms without repeats, each with its least origin.
ghost use Rattle.std.specs.Prelude.{◌≡◌, ◌+◌, ◌++◌, IsSome, IfSome, ◌<◌, ◌≤◌, ◌↔◌, if◌then◌else◌, is_some, [], Some, IsTrue, IfOk, OnOk, OnErr, drop, length, slice_get, take};
ghost use Rattle.std.specs.Option.{option_copied, option_map_or};
ghost use Rattle.std.specs.Map.{lookup};
ghost use Rattle.indexmap.specs.IndexMap.{IsUnchanged, IsUnique, index_map_len, insert_entry};
ghost use Rattle.owl_axioms.specs.Same.{same_axiom};
ghost use Rattle.owl_ontology.specs.Ontology.{AreDifferent, IsHeld, add_entry, axioms_of, first_flag, flagged, origins_of, taken_out};
ghost use Rattle.owl_ontology.specs.Origins.{lesser};
ghost use Rattle.owl_axioms.specs.Proper.{AreProper, IsProper};

use crate::Origin;
use hash_key::HashKey;
use indexmap::IndexMap;
use owl_axioms::Axiom;
use rel_io::{Bytes, Dup, NoMemory};
use std::alloc::Global;
use std::marker::Model;

/// An ontology: seen as its name and its entries, the axioms in the order in which they came, each with the
/// least of the origins with which it was added. All its axioms are proper and different.
#[derive(Drop)]
pub struct Ontology {
    name: Option<Bytes>,
    axioms: IndexMap<Axiom, Origin, HashKey>,
}

impl Model for Ontology {
    ghost use Rattle.std.specs.Coded.{codes};
    ghost use Rattle.indexmap.specs.IndexMap.{IsUnique, keys};
    ghost use Rattle.owl_axioms.specs.contracts.expr.ClassExpr as row;
    ghost use Rattle.owl_axioms.specs.Same.{same_axiom};
    ghost use Rattle.owl_ontology.specs.Ontology.{OntologyState, entries_of};
    ghost use Rattle.owl_axioms.specs.Proper.{AreProper};

    ghost Value = { OntologyState };

    ghost coded = { Prim.hlevel (codes, row.the_row.coded) };

    ghost view = { λ o. record { name = o.name; entries = entries_of o.axioms.entries } };

    ghost invariant = { λ o. IsUnique same_axiom o.axioms × AreProper (keys o.axioms) };
}

impl Ontology {
    /// An ontology of this name, or of none, without axioms.
    pub fn new(alloc: Global, hash_key: HashKey, name: Option<Bytes>) -> Result<Ontology, NoMemory>
        ensures { IfOk result (λ o. o ≡ record { name = name; entries = [] }) }
    {
        Ok(Ontology {
            name,
            axioms: IndexMap::with_hasher(alloc, hash_key),
        })
    }

    /// Adds an axiom, and says whether it is new. One that is there already keeps its place, with the lesser of
    /// the two origins. Where no memory is left, nothing has happened.
    pub fn add(&mut self, axiom: Axiom, origin: Origin) -> Result<bool, NoMemory>
        requires { IsProper «axiom» }
        ensures entries { OnOk result (self.new ≡ record self.old { entries = add_entry «axiom» origin self.old.entries }) }
        ensures is_new { IfOk result (λ is_new. IsTrue is_new ↔ ¬ IsHeld «axiom» self.old.entries) }
        ensures unchanged { OnErr result (self.new ≡ self.old) }
    {
        let count = self.axioms.len();
        put_least(&mut self.axioms, axiom, origin)?;
        Ok(self.axioms.len() != count)
    }

    /// The key with which its table hashes.
    pub fn hash_key(&self) -> HashKey {
        *self.axioms.hasher()
    }

    /// The name, if it has one.
    pub fn name(&self) -> Option<&Bytes>
        ensures { option_copied result ≡ self.now.name }
    {
        self.name.as_ref()
    }

    /// Whether the axiom is there, with these annotations.
    pub fn holds(&self, axiom: &Axiom) -> bool
        ensures { IsTrue result ↔ IsHeld «axiom».now self.now.entries }
    {
        self.axioms.contains_key(axiom)
    }

    /// How many axioms there are. They are all different and proper.
    pub fn len(&self) -> usize
        ensures len { result ≡ length self.now.entries }
        ensures different { AreDifferent self.now.entries }
        ensures proper { AreProper (axioms_of self.now.entries) }
    {
        self.axioms.len()
    }

    /// The axiom at a place, from 0.
    pub fn get(&self, at: usize) -> &Axiom
        requires { at < length self.now.entries }
        ensures found { slice_get (axioms_of self.now.entries) at ≡ Some result.now }
        ensures proper { IsProper result.now }
    {
        self.axioms.get_index(at).unwrap().0
    }

    /// Keeps the axioms whose flag is true, in their order and with their origins, and drops the others.
    pub fn keep(&mut self, flags: &Vec<bool>)
        requires { length flags.now.items ≡ length self.old.entries }
        ensures { self.new ≡ record self.old { entries = flagged flags.now.items self.old.entries } }
    {
        let mut rest = flags.as_slice();
        self.axioms.retain(
            |_axiom: &Axiom, origin: &mut Origin| -> bool
                ensures { (result ≡ first_flag rest.entry.now) × (rest.exit.now ≡ drop 1 rest.entry.now) × (origin.new ≡ origin.old) }
            {
                match rest.split_first() {
                    Some((flag, others)) => {
                        rest = others;
                        *flag
                    }
                    None => false,
                }
            },
        );
    }

    /// Where the axiom at a place comes from.
    pub fn origin(&self, at: usize) -> Origin
        requires { at < length self.now.entries }
        ensures { slice_get (origins_of self.now.entries) at ≡ Some result }
    {
        self.axioms[at]
    }

    /// Takes the last axiom out, with its origin. It takes no memory.
    pub fn pop(&mut self) -> Option<(Axiom, Origin)>
        ensures entries { self.old.entries ≡ self.new.entries ++ taken_out result }
        ensures found { IsSome result ↔ (0 < length self.old.entries) }
        ensures name { self.new.name ≡ self.old.name }
        ensures proper { IfSome result (λ taken. IsProper taken.0) }
    {
        self.axioms.pop()
    }

    /// Keeps the first axioms with their origins, as after a call that failed. It takes no memory.
    pub fn cut(&mut self, len: usize)
        requires { len ≤ length self.old.entries }
        ensures { self.new ≡ record self.old { entries = take len self.old.entries } }
    {
        self.axioms.truncate(len);
    }
}

impl Dup for Ontology {
    fn copy(&self, alloc: Global) -> Result<Ontology, NoMemory> {
        let name = self.name.copy(alloc)?;
        let axioms = copy_table(alloc, &self.axioms)?;
        Ok(Ontology { name, axioms })
    }
}

/// A table of the same axioms and origins, in the same order.
fn copy_table(
    alloc: Global,
    axioms: &IndexMap<Axiom, Origin, HashKey>,
) -> Result<IndexMap<Axiom, Origin, HashKey>, NoMemory>
    ensures same { IfOk result (λ twins. twins.entries ≡ axioms.now.entries) }
    ensures unique { IfOk result (IsUnique same_axiom) }
{
    let mut twins = IndexMap::with_hasher(alloc, *axioms.hasher());
    for at in 0..axioms.len() {
        let (axiom, origin) = axioms.get_index(at).unwrap();
        let twin = axiom.copy(alloc)?;
        put(&mut twins, twin, *origin)?;
    }
    Ok(twins)
}

/// Puts an axiom with its origin into a table, and gives the origin that it had there, if any.
fn put(
    axioms: &mut IndexMap<Axiom, Origin, HashKey>,
    axiom: Axiom,
    origin: Origin,
) -> Result<Option<Origin>, NoMemory>
    ensures old { IfOk result (λ old. old ≡ lookup (same_axiom «axiom») axioms.old.entries) }
    ensures entries { OnOk result (axioms.new.entries ≡ insert_entry same_axiom axioms.old.entries «axiom» origin) }
    ensures err { OnErr result (IsUnchanged axioms.old axioms.new) }
    ensures unique { IsUnique same_axiom axioms.new }
{
    Ok(axioms.insert(axiom, origin)?)
}

/// Puts an axiom into a table with the lesser of the origin that it had there, if any, and another one. It is looked up
/// once.
fn put_least(
    axioms: &mut IndexMap<Axiom, Origin, HashKey>,
    axiom: Axiom,
    origin: Origin,
) -> Result<(), NoMemory>
    ensures entries { OnOk result (axioms.new.entries ≡ insert_entry same_axiom axioms.old.entries «axiom»
        (option_map_or (lesser origin) (lookup (same_axiom «axiom») axioms.old.entries) origin)) }
    ensures len { OnOk result (index_map_len axioms.new ≡ index_map_len axioms.old + (if is_some (lookup (same_axiom «axiom») axioms.old.entries) then 0 else 1)) }
    ensures err { OnErr result (IsUnchanged axioms.old axioms.new) }
    ensures unique { IsUnique same_axiom axioms.new }
{
    let held = axioms.entry(axiom)?.or_insert(origin);
    *held = least_of(*held, origin);
    Ok(())
}

/// The lesser of two origins.
fn least_of(held: Origin, origin: Origin) -> Origin
    ensures { result ≡ lesser origin held }
{
    if held < origin { held } else { origin }
}
