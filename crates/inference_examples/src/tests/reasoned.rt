//! Small ontologies, and what reasoning adds to them or why it is refused.
use super::derived::{ontology_of, said};
use el_taxonomy::{ReasonFault, reason};
use owl_axioms::axiom_of;
use owl_ontology::Ontology;
use rel_io::NoMemory;
use std::alloc::Global;
use std::test::Fail;

/// Whether an ontology says that the class of one letter is below that of another.
fn has_edge(alloc: Global, ontology: &Ontology, one: u8, other: u8) -> Result<bool, NoMemory> {
    let body = said(alloc, b'<', one, other)?;
    let made = axiom_of(alloc, body, Vec::new(alloc))?;
    let is_held = ontology.holds(&made);
    drop(made);
    Ok(is_held)
}

/// Whether it says that of all these pairs.
fn has_edges(alloc: Global, ontology: &Ontology, edges: &[(u8, u8)]) -> Result<bool, NoMemory> {
    let mut has_all = true;
    for (one, other) in edges {
        has_all &= has_edge(alloc, ontology, *one, *other)?;
    }
    Ok(has_all)
}

/// Whether reasoning adds exactly these edges, and does not use so many axioms.
fn is_reasoned(
    alloc: Global,
    axioms: &[(u8, u8, u8)],
    edges: &[(u8, u8)],
    unused: u64,
) -> Result<bool, NoMemory> {
    let mut ontology = ontology_of(alloc, axioms)?;
    let wanted = ontology.len().saturating_add(edges.len());
    let has_before = !edges.is_empty() && has_edges(alloc, &ontology, edges)?;
    match reason(alloc, &mut ontology, 1000) {
        Ok(said) => Ok(
            !has_before
                && said.added == edges.len() as u64
                && said.unused == unused
                && ontology.len() == wanted
                && has_edges(alloc, &ontology, edges)?,
        ),
        Err(_) => Ok(false),
    }
}

/// Whether reasoning is refused so, and leaves the ontology as long as it was.
fn is_refused(
    alloc: Global,
    axioms: &[(u8, u8, u8)],
    limit: u64,
    wanted: ReasonFault,
) -> Result<bool, NoMemory> {
    let mut ontology = ontology_of(alloc, axioms)?;
    let before = ontology.len();
    match reason(alloc, &mut ontology, limit) {
        Ok(_) => Ok(false),
        Err(fault) => Ok(fault == wanted && ontology.len() == before),
    }
}

/// Axioms, the edges that reasoning adds, and how many axioms it does not use.
#[test]
fn edges_are_inferred(rt: HostRuntime) -> Result<(), Fail> {
    let alloc = rt.alloc();
    for (about, axioms, edges, unused) in [
        (
            "a definition, through a chain of a transitive role",
            [
                (b'=', b'w', b'W'),
                (b'<', b'd', b'a'),
                (b'<', b'd', b'C'),
                (b'<', b'c', b'B'),
                (b't', b'r', b'r'),
                (b'D', b'a', b'a'),
                (b'D', b'b', b'b'),
                (b'D', b'c', b'c'),
                (b'D', b'd', b'd'),
                (b'D', b'w', b'w'),
            ]
            .as_slice(),
            [(b'w', b'a'), (b'd', b'w')].as_slice(),
            0,
        ),
        (
            "a diamond that is told",
            [
                (b'<', b'a', b'b'),
                (b'<', b'a', b'c'),
                (b'<', b'b', b'd'),
                (b'<', b'c', b'd'),
                (b'D', b'a', b'a'),
                (b'D', b'b', b'b'),
            ]
            .as_slice(),
            [].as_slice(),
            0,
        ),
        (
            "equal classes, with an edge out of one of them",
            [
                (b'=', b'a', b'b'),
                (b'<', b'b', b'c'),
                (b'D', b'a', b'a'),
                (b'D', b'b', b'b'),
                (b'D', b'c', b'c'),
            ]
            .as_slice(),
            [(b'a', b'b'), (b'b', b'a'), (b'a', b'c')].as_slice(),
            0,
        ),
        (
            "a domain, a class that is not declared, and a range that is not used",
            [
                (b'<', b'a', b'S'),
                (b'd', b's', b'd'),
                (b'<', b'e', b'a'),
                (b'g', b'r', b'e'),
                (b'D', b'a', b'a'),
            ]
            .as_slice(),
            [(b'a', b'd')].as_slice(),
            1,
        ),
        (
            "an empty class that is not declared, and classes below everything",
            [
                (b'|', b'a', b'a'),
                (b'<', b'b', b'T'),
                (b'<', b'N', b'b'),
                (b'D', b'b', b'b'),
            ]
            .as_slice(),
            [].as_slice(),
            0,
        ),
    ] {
        let as_wanted = is_reasoned(alloc, axioms, edges, unused)?;
        assert!(rt; as_wanted, "{about}");
    }
    Ok(())
}

/// Axioms, a limit of facts, and why reasoning is refused.
#[test]
fn reasoning_is_refused(rt: HostRuntime) -> Result<(), Fail> {
    let alloc = rt.alloc();
    for (about, axioms, limit, fault) in [
        (
            "a class that is disjoint from itself",
            [(b'D', b'b', b'b'), (b'D', b'a', b'a'), (b'|', b'a', b'a')].as_slice(),
            1000,
            ReasonFault::Unsatisfiable { at: 1 },
        ),
        (
            "two such classes",
            [
                (b'D', b'b', b'b'),
                (b'|', b'b', b'b'),
                (b'|', b'a', b'a'),
                (b'D', b'a', b'a'),
            ]
            .as_slice(),
            1000,
            ReasonFault::Unsatisfiable { at: 3 },
        ),
        (
            "a limit, before such a class",
            [(b'D', b'a', b'a'), (b'|', b'a', b'a')].as_slice(),
            0,
            ReasonFault::TooManyFacts { limit: 0 },
        ),
    ] {
        let as_wanted = is_refused(alloc, axioms, limit, fault)?;
        assert!(rt; as_wanted, "{about}");
    }
    Ok(())
}
