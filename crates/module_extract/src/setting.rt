//! What a module is grown over: the expressions of the part in a pool, and of each name the axioms that mention it.
ghost use Rattle.std.specs.Prelude.{◌≡◌, ◌&&◌, ◌<◌, Bool, IfOk, OnOk, length, slice_get, Some};
ghost use Rattle.expr_pool.specs.Pool.{Grew};
ghost use Rattle.module_extract.specs.inner.Setting.{IsSetting, IsStep, IsTold, IsToldOne};
ghost use Rattle.owl_axioms.specs.Names.{body_names};
ghost use Rattle.owl_axioms.specs.Signature.{added, no_names};
ghost use Rattle.owl_ontology.specs.Ontology.{axioms_of};
ghost use Rattle.owl_sem.specs.Models.{is_logical};

use crate::logic::is_logical;
use crate::naming::names_in_body;
use expr_pool::Pool;
use locality_core::{Plain, pool_axiom};
use name_lists::NamedLists;
use owl_axioms::{Axiom, Name, Sig};
use owl_ontology::Ontology;
use rel_io::NoMemory;
use std::alloc::Global;

/// The part's logical axioms, with the nodes of their expressions and the axioms of each name.
#[derive(Drop)]
pub(crate) struct Setting {
    /// The expressions of the part.
    pub(crate) pool: Pool,
    /// Of each axiom the nodes of its expressions, if it is of the part.
    pub(crate) plains: Vec<Plain>,
    /// Of each name the places of the axioms that mention it.
    pub(crate) table: NamedLists,
    /// The places of the part's logical axioms.
    pub(crate) all: Vec<u64>,
}

/// Adds the place of an axiom to the list of a name that is new to those seen.
fn tell_one(table: &mut NamedLists, seen: &mut Sig, name: &Name, at: u64) -> Result<(), NoMemory>
    ensures { OnOk result (IsToldOne table.old seen.old name.now at seen.new table.new) }
{
    let is_new = seen.add(name)?;
    if !is_new {
        return Ok(());
    }
    table.add(name, at)?;
    Ok(())
}

/// Adds the place of an axiom to the list of each of its names.
fn tell(alloc: Global, table: &mut NamedLists, one: &Axiom, at: u64) -> Result<(), NoMemory>
    ensures { OnOk result (IsTold table.old (body_names one.now.body) at (added no_names (body_names one.now.body)) table.new) }
{
    let names = names_in_body(alloc, &one.body)?;
    let mut seen = Sig::new(alloc, table.hash_key())?;
    'names: for name in names.as_slice() {
        tell_one(table, &mut seen, name, at)?;
    }
    Ok(())
}

/// Adds an axiom, where it is one of the part's logical ones.
fn add_axiom(
    alloc: Global,
    one: &Axiom,
    of: bool,
    at: u64,
    pool: &mut Pool,
    plains: &mut Vec<Plain>,
    table: &mut NamedLists,
    all: &mut Vec<u64>,
) -> Result<(), NoMemory>
    ensures { OnOk result (IsStep of at one.now.body pool.old plains.old.items table.old all.old.items pool.new plains.new.items table.new all.new.items) }
{
    if !of {
        plains.push(Plain::Other)?;
        return Ok(());
    }
    let plain = pool_axiom(alloc, pool, one)?;
    plains.push(plain)?;
    all.push(at)?;
    tell(alloc, table, one, at)?;
    Ok(())
}

/// Whether the axiom at a place is a logical one of the part.
fn is_work(part: &Vec<bool>, one: &Axiom, at: usize) -> bool
    requires { at < length part.now.items }
    ensures { (f : Bool) → slice_get part.now.items at ≡ Some f → result ≡ (f && is_logical one.now.body) }
{
    part[at] && is_logical(&one.body)
}

/// What a module of the part is grown over.
pub(crate) fn setting_of(
    alloc: Global,
    ontology: &Ontology,
    part: &Vec<bool>,
) -> Result<Setting, NoMemory>
    requires { length part.now.items ≡ length ontology.now.entries }
    ensures { IfOk result (λ s. IsSetting (axioms_of ontology.now.entries) part.now.items s.pool s.plains.items s.table s.all.items) }
{
    let mut pool = Pool::new(alloc, ontology.hash_key())?;
    let mut plains = Vec::new(alloc);
    let mut table = NamedLists::new(alloc, ontology.hash_key())?;
    let mut all = Vec::new(alloc);
    'axioms: for at in 0..ontology.len() {
        let one = ontology.get(at);
        let of = is_work(part, one, at);
        add_axiom(
            alloc,
            one,
            of,
            at as u64,
            &mut pool,
            &mut plains,
            &mut table,
            &mut all,
        )?;
    }
    Ok(Setting {
        pool,
        plains,
        table,
        all,
    })
}
