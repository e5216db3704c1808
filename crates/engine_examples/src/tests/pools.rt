//! Trees, and the nodes that a pool gives them.
use expr_pool::Pool;
use hash_key::HashKey;
use owl_axioms::ClassExpr;
use rel_io::{Boxed, Iri, Items, NoMemory};
use std::alloc::Global;
use std::test::Fail;

/// The role of all examples.
fn role(alloc: Global) -> Result<Iri, NoMemory> {
    Iri::from_slice(alloc, b"r")
}

/// The class of this letter.
fn class(alloc: Global, letter: u8) -> Result<ClassExpr, NoMemory> {
    Iri::from_slice(alloc, &[letter]).map(ClassExpr::Class)
}

/// What has a filler in the part.
fn some_of(alloc: Global, role: Iri, part: ClassExpr) -> Result<ClassExpr, NoMemory> {
    Boxed::new(alloc, part).map(|part| ClassExpr::Some(role, part))
}

/// What has some filler in the class b.
fn with_b(alloc: Global) -> Result<ClassExpr, NoMemory> {
    let role = role(alloc)?;
    let b = class(alloc, b'b')?;
    some_of(alloc, role, b)
}

/// A list of two.
fn pair(alloc: Global, first: ClassExpr, second: ClassExpr) -> Result<Vec<ClassExpr>, NoMemory> {
    Ok(Vec::from_array(alloc, [first, second])?)
}

/// The class a, and what has some filler in the class b.
fn operands(alloc: Global) -> Result<Vec<ClassExpr>, NoMemory> {
    let a = class(alloc, b'a')?;
    let b = with_b(alloc)?;
    pair(alloc, a, b)
}

/// The intersection of the class b and of another intersection.
fn nested(alloc: Global) -> Result<ClassExpr, NoMemory> {
    let inner = operands(alloc).map(|operands| ClassExpr::And(Items::from_vec(operands)))?;
    let b = class(alloc, b'b')?;
    let both = pair(alloc, b, inner)?;
    Ok(ClassExpr::And(Items::from_vec(both)))
}

/// The tree of a number over what has some filler in b: its complement, and what has only it, or counts of it.
fn over_with_b(alloc: Global, number: u8) -> Result<ClassExpr, NoMemory> {
    let role = role(alloc)?;
    let part = with_b(alloc)?;
    let part = Boxed::new(alloc, part)?;
    Ok(match number {
        6 => ClassExpr::Not(part),
        7 => ClassExpr::All(role, part),
        8 => ClassExpr::Min(2, role, part),
        9 => ClassExpr::Max(2, role, part),
        10 => ClassExpr::Exact(2, role, part),
        _ => ClassExpr::Exact(3, role, part),
    })
}

/// The tree of a number: the classes a and b, what has some b, the intersection and the union of a and that, Thing,
/// Nothing, an intersection in an intersection, and those over what has some b.
fn tree(alloc: Global, number: u8) -> Result<ClassExpr, NoMemory> {
    match number {
        0 => class(alloc, b'a'),
        1 => class(alloc, b'b'),
        2 => with_b(alloc),
        3 => operands(alloc).map(|operands| ClassExpr::And(Items::from_vec(operands))),
        4 => operands(alloc).map(|operands| ClassExpr::Or(Items::from_vec(operands))),
        5 => Ok(ClassExpr::Thing),
        12 => Ok(ClassExpr::Nothing),
        13 => nested(alloc),
        _ => over_with_b(alloc, number),
    }
}

/// The place of the node of a tree, and the number of nodes behind it.
fn interned(pool: &mut Pool, tree: ClassExpr) -> Result<(u64, u64), NoMemory> {
    let answer = pool.intern(&tree);
    drop(tree);
    let node = answer?;
    Ok((node.place(), pool.len()))
}

/// The same of the tree of a number.
pub fn interned_at(alloc: Global, pool: &mut Pool, number: u8) -> Result<(u64, u64), NoMemory> {
    let tree = tree(alloc, number)?;
    interned(pool, tree)
}

/// Whether the trees of these numbers, one after the other, get these places and leave so many nodes.
fn are_interned(
    alloc: Global,
    pool: &mut Pool,
    wanted: &[(u8, u64, u64)],
) -> Result<bool, NoMemory> {
    let mut as_wanted = true;
    for (number, place, len) in wanted {
        as_wanted &= interned_at(alloc, pool, *number)? == (*place, *len);
    }
    Ok(as_wanted)
}

/// Equal trees get one node, and others a new one behind their parts; and so it is again when the pool was cleared.
#[test]
fn trees_are_interned(rt: HostRuntime) -> Result<(), Fail> {
    let alloc = rt.alloc();
    let mut pool = Pool::new(alloc, HashKey::new(7))?;
    let wanted = [
        (3, 3, 4),
        (3, 3, 4),
        (0, 0, 4),
        (1, 1, 4),
        (2, 2, 4),
        (4, 4, 5),
        (5, 5, 6),
        (4, 4, 6),
    ];
    let first = are_interned(alloc, &mut pool, wanted.as_slice())?;
    assert!(rt; first);
    pool.clear();
    let again = are_interned(
        alloc,
        &mut pool,
        [(1, 0, 1), (0, 1, 2), (3, 3, 4)].as_slice(),
    )?;
    assert!(rt; again);
    Ok(())
}

/// Each constructor has a node of its own over the part that they share, each number of fillers too, and an intersection
/// that stands in another one is not taken apart.
#[test]
fn each_constructor_is_interned(rt: HostRuntime) -> Result<(), Fail> {
    let alloc = rt.alloc();
    let mut pool = Pool::new(alloc, HashKey::new(7))?;
    let wanted = [
        (12, 0, 1),
        (6, 3, 4),
        (7, 4, 5),
        (8, 5, 6),
        (9, 6, 7),
        (10, 7, 8),
        (11, 8, 9),
        (8, 5, 9),
        (13, 11, 12),
        (3, 10, 12),
        (0, 9, 12),
    ];
    let as_wanted = are_interned(alloc, &mut pool, wanted.as_slice())?;
    assert!(rt; as_wanted);
    Ok(())
}

/// A tree of this depth.
fn deep(alloc: Global, depth: u8) -> Result<ClassExpr, NoMemory> {
    let mut tree = class(alloc, b'a')?;
    for _level in 0..depth {
        let role = role(alloc)?;
        tree = some_of(alloc, role, tree)?;
    }
    Ok(tree)
}

/// Classes of different numbers, as the operands of a union.
fn classes(alloc: Global, count: u32) -> Result<Vec<ClassExpr>, NoMemory> {
    let mut classes = Vec::new(alloc);
    for number in 0..count {
        let iri = Iri::from_slice(alloc, &number.to_be_bytes())?;
        classes.push(ClassExpr::Class(iri))?;
    }
    Ok(classes)
}

/// A deep tree has a node for each of its levels, and a wide one for each of its operands.
#[test]
fn large_trees_are_interned(rt: HostRuntime) -> Result<(), Fail> {
    let alloc = rt.alloc();
    let mut pool = Pool::new(alloc, HashKey::new(7))?;
    let deep = interned(&mut pool, deep(alloc, 64)?)?;
    assert_eq!(rt; deep, (64, 65));
    let operands = classes(alloc, 10000)?;
    let wide = interned(&mut pool, ClassExpr::Or(Items::from_vec(operands)))?;
    assert_eq!(rt; wide, (10065, 10066));
    Ok(())
}
