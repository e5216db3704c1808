//! Pools and ontologies that are cut back to what stands first in them.
use crate::tests::pools::interned_at;
use crate::tests::steps::axiom;
use expr_pool::{Cell, Pool};
use hash_key::HashKey;
use owl_ontology::{Ontology, Origin};
use rel_io::{Iri, NoMemory};
use std::alloc::Global;
use std::test::Fail;

/// Keeps the first nodes of a pool, where it has so many.
fn cut_pool(pool: &mut Pool, len: u64) {
    if len <= pool.len() {
        pool.cut(len);
    }
}

/// Whether the first node of a pool is the class a.
fn starts_with_a(alloc: Global, pool: &Pool) -> Result<bool, NoMemory> {
    let a = Iri::from_slice(alloc, b"a").map(Cell::Class)?;
    let is_first = pool.len() > 0 && *pool.node(pool.at(0)) == a;
    drop(a);
    Ok(is_first)
}

/// A pool that is cut keeps its first nodes with their trees, and gives nodes as ever.
#[test]
fn pools_are_cut(rt: HostRuntime) -> Result<(), Fail> {
    let alloc = rt.alloc();
    let mut pool = Pool::new(alloc, HashKey::new(7))?;
    let class = interned_at(alloc, &mut pool, 0)?;
    assert_eq!(rt; class, (0, 1));
    let whole = interned_at(alloc, &mut pool, 3)?;
    assert_eq!(rt; whole, (3, 4));
    cut_pool(&mut pool, 1);
    assert_eq!(rt; pool.len(), 1);
    let is_first = starts_with_a(alloc, &pool)?;
    assert!(rt; is_first);
    let again = interned_at(alloc, &mut pool, 3)?;
    assert_eq!(rt; again, (3, 4));
    Ok(())
}

/// Adds the axiom of a row with an origin in the line, and says whether it is new.
fn put(
    alloc: Global,
    ontology: &mut Ontology,
    row: &(u8, u8, &[u8], bool),
    line: u32,
) -> Result<bool, NoMemory> {
    let axiom = axiom(alloc, row)?;
    ontology.add(axiom, Origin { file: 2, line })
}

/// Keeps the first axioms of an ontology, where it has so many.
fn cut_ontology(ontology: &mut Ontology, len: usize) {
    if len <= ontology.len() {
        ontology.cut(len);
    }
}

/// Whether the axiom of a row stands at this place, with an origin in the line, and is the last one.
fn ends_with(
    alloc: Global,
    ontology: &Ontology,
    at: usize,
    row: &(u8, u8, &[u8], bool),
    line: u32,
) -> Result<bool, NoMemory> {
    if ontology.len() <= at {
        return Ok(false);
    }
    let axiom = axiom(alloc, row)?;
    let is_there = *ontology.get(at) == axiom;
    drop(axiom);
    let is_last = ontology.len() - at == 1;
    Ok(is_there && is_last && ontology.origin(at) == Origin { file: 2, line })
}

/// An ontology that is cut keeps its first axioms with their origins; what was taken out is new when it is added again.
#[test]
fn ontologies_are_cut(rt: HostRuntime) -> Result<(), Fail> {
    let alloc = rt.alloc();
    let first = (b'a', b'<', b"b".as_slice(), false);
    let second = (b'a', b'<', b"C".as_slice(), false);
    let mut ontology = Ontology::new(alloc, HashKey::new(7), None)?;
    let one = put(alloc, &mut ontology, &first, 3)?;
    assert!(rt; one);
    let two = put(alloc, &mut ontology, &second, 4)?;
    assert!(rt; two);
    let both = ends_with(alloc, &ontology, 1, &second, 4)?;
    assert!(rt; both);
    cut_ontology(&mut ontology, 1);
    let alone = ends_with(alloc, &ontology, 0, &first, 3)?;
    assert!(rt; alone);
    let again = put(alloc, &mut ontology, &second, 5)?;
    assert!(rt; again);
    let last = ends_with(alloc, &ontology, 1, &second, 5)?;
    assert!(rt; last);
    Ok(())
}
