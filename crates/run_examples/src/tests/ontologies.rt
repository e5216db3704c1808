//! An ontology of a few declarations, case by case; and copies of axioms of each kind.
ghost use Rattle.std.specs.Prelude.{IfOk, IsTrue};
ghost use Rattle.rel_io.specs.Texts.{is_clean_iri};
ghost use Rattle.owl_axioms.specs.Proper.{IsProper};

use document_examples::is_copied;
use hash_key::HashKey;
use owl_axioms::{Axiom, Body, ClassExpr, Kind, Name, NoteValue, Side};
use owl_ontology::{Ontology, Origin};
use rel_io::{Boxed, Bytes, Dup, Iri, Items, NoMemory};
use std::alloc::Global;
use std::test::Fail;

/// One of the letters from `a` to `p` as an IRI.
fn letter(alloc: Global, place: u8) -> Result<Iri, NoMemory>
    ensures { IfOk result (λ iri. IsTrue (is_clean_iri iri)) }
{
    Ok(Iri::from_vec(Vec::from_slice(alloc, &[97 + place % 16])?))
}

/// The declaration of a class.
fn plain(alloc: Global, place: u8) -> Result<Axiom, NoMemory>
    ensures { IfOk result IsProper }
{
    let iri = letter(alloc, place)?;
    let name = Name {
        kind: Kind::Class,
        iri,
    };
    Ok(Axiom {
        body: Body::Declaration(name),
        sides: Items::from_vec(Vec::new(alloc)),
    })
}

/// The same declaration with an annotation.
fn annotated(alloc: Global, place: u8) -> Result<Axiom, NoMemory>
    ensures { IfOk result IsProper }
{
    let iri = letter(alloc, place)?;
    let property = letter(alloc, place)?;
    let side = Side {
        property,
        value: NoteValue::Text(Bytes::from_vec(Vec::new(alloc))),
        label: None,
    };
    let mut sides = Vec::new(alloc);
    sides.push(side)?;
    let name = Name {
        kind: Kind::Class,
        iri,
    };
    Ok(Axiom {
        body: Body::Declaration(name),
        sides: Items::from_vec(sides),
    })
}

/// Whether the ontology has this axiom of this origin at a place.
fn has_at(ontology: &Ontology, at: usize, axiom: &Axiom, origin: Origin) -> bool {
    at < ontology.len() && ontology.get(at) == axiom && ontology.origin(at) == origin
}

#[test]
fn an_axiom_is_kept_once_with_its_least_origin(rt: HostRuntime) -> Result<(), Fail> {
    let alloc = rt.alloc();
    let mut ontology = Ontology::new(alloc, HashKey::new(7), None)?;
    for (place, file, line, is_new) in [
        (0u8, 0u32, 2u32, true),
        (1, 0, 5, true),
        (0, 1, 1, false),
        (1, 0, 3, false),
        (1, 0, 4, false),
        (2, 1, 7, true),
        (2, 0, 9, false),
    ] {
        let axiom = plain(alloc, place)?;
        assert_eq!(rt; ontology.add(axiom, Origin { file, line })?, is_new);
    }
    assert!(rt; !ontology.holds(&annotated(alloc, 1)?));
    assert!(rt; ontology.add(annotated(alloc, 1)?, Origin { file: 0, line: 1 })?);
    assert!(rt; ontology.holds(&annotated(alloc, 1)?));
    assert!(rt; ontology.holds(&plain(alloc, 1)?));
    assert!(rt; !ontology.holds(&plain(alloc, 3)?));
    let mut twin = ontology.copy(alloc)?;
    assert_eq!(rt; twin.len(), 4);
    assert!(rt; twin.name().is_none());
    for (at, line) in [2u32, 3, 9].into_iter().enumerate() {
        let axiom = plain(alloc, at as u8)?;
        assert!(rt; has_at(&ontology, at, &axiom, Origin { file: 0, line }));
        assert!(rt; has_at(&twin, at, &axiom, Origin { file: 0, line }));
    }
    let flags = Vec::from_slice(alloc, &[false, true, false, true])?;
    if flags.len() == twin.len() {
        twin.keep(&flags);
    }
    assert_eq!(rt; twin.len(), 2);
    assert!(rt; has_at(&twin, 0, &plain(alloc, 1)?, Origin { file: 0, line: 3 }));
    assert!(rt; has_at(&twin, 1, &annotated(alloc, 1)?, Origin { file: 0, line: 1 }));
    Ok(())
}

/// Two operands.
fn operands(alloc: Global) -> Result<Items<ClassExpr>, NoMemory> {
    let mut operands = Vec::new(alloc);
    operands.push(ClassExpr::Class(letter(alloc, 0)?))?;
    operands.push(ClassExpr::Nothing)?;
    Ok(Items::from_vec(operands))
}

/// A class in a box.
fn boxed(alloc: Global) -> Result<Boxed<ClassExpr>, NoMemory> {
    let class = letter(alloc, 1)?;
    Boxed::new(alloc, ClassExpr::Class(class))
}

/// An expression of a property and a filler.
fn restriction(number: u8, role: Iri, part: Boxed<ClassExpr>) -> ClassExpr {
    match number {
        6 => ClassExpr::Some(role, part),
        7 => ClassExpr::All(role, part),
        8 => ClassExpr::Min(2, role, part),
        9 => ClassExpr::Max(3, role, part),
        _ => ClassExpr::Exact(4, role, part),
    }
}

/// The expressions, from 0 to 10.
fn expr(alloc: Global, number: u8) -> Result<ClassExpr, NoMemory> {
    match number {
        0 => Ok(ClassExpr::Thing),
        1 => Ok(ClassExpr::Nothing),
        2 => Ok(ClassExpr::Class(letter(alloc, 2)?)),
        3 => Ok(ClassExpr::And(operands(alloc)?)),
        4 => Ok(ClassExpr::Or(operands(alloc)?)),
        5 => Ok(ClassExpr::Not(boxed(alloc)?)),
        _ => {
            let role = letter(alloc, 3)?;
            let part = boxed(alloc)?;
            Ok(restriction(number, role, part))
        }
    }
}

/// An axiom about a class and an IRI.
fn of_class(number: u8, class: ClassExpr, iri: Iri) -> Body {
    match number {
        11 => Body::Equiv(class, ClassExpr::Thing),
        12 => Body::Disjoint(class, ClassExpr::Thing),
        13 => Body::Domain(iri, class),
        14 => Body::Range(iri, class),
        15 => Body::ClassAssertion(class, iri),
        _ => Body::Sub(class, ClassExpr::Class(iri)),
    }
}

/// An axiom about properties.
fn of_roles(number: u8, first: Iri, second: Iri, third: Iri) -> Body {
    match number {
        16 => Body::SubRole(first, second),
        17 => Body::EquivRoles(first, second),
        18 => Body::DisjointRoles(first, second),
        19 => Body::Inverse(first, second),
        20 => Body::Chain(first, second, third),
        _ => Body::RoleAssertion(first, second, third),
    }
}

/// An axiom about one property.
fn of_role(number: u8, role: Iri) -> Body {
    match number {
        22 => Body::Transitive(role),
        23 => Body::Reflexive(role),
        24 => Body::Symmetric(role),
        25 => Body::Asymmetric(role),
        26 => Body::Functional(role),
        _ => Body::InverseFunctional(role),
    }
}

/// A value, one of three.
fn value(alloc: Global, number: u8) -> Result<NoteValue, NoMemory> {
    let text = Bytes::from_slice(alloc, b"text")?;
    match number % 3 {
        0 => Ok(NoteValue::Text(text)),
        1 => Ok(NoteValue::Typed(text, letter(alloc, 4)?)),
        _ => Ok(NoteValue::Link(letter(alloc, 5)?)),
    }
}

/// An axiom about an entity or the ontology in words.
fn of_note(number: u8, subject: Name, property: Iri, value: NoteValue) -> Body {
    match number {
        28 => Body::Declaration(subject),
        29 => Body::Note(subject, property, value),
        _ => Body::OntologyNote(property, value),
    }
}

/// What axioms say, from 0 to 30: each kind of axiom, and each kind of expression in one.
fn body(alloc: Global, number: u8) -> Result<Body, NoMemory> {
    let iri = letter(alloc, 6)?;
    let second = letter(alloc, 7)?;
    match number {
        0..=15 => Ok(of_class(number, expr(alloc, number % 11)?, iri)),
        16..=21 => Ok(of_roles(number, iri, second, letter(alloc, 8)?)),
        22..=27 => Ok(of_role(number, iri)),
        _ => {
            let kind = Kind::AnnotationProperty;
            let value = value(alloc, number)?;
            Ok(of_note(number, Name { kind, iri }, second, value))
        }
    }
}

/// One annotation, with a label at each other number.
fn sides(alloc: Global, number: u8) -> Result<Items<Side>, NoMemory> {
    let value = value(alloc, number)?;
    let property = letter(alloc, 9)?;
    let label = if number % 2 == 0 {
        None
    } else {
        Some(Bytes::from_slice(alloc, b"label")?)
    };
    let mut sides = Vec::new(alloc);
    sides.push(Side {
        property,
        value,
        label,
    })?;
    Ok(Items::from_vec(sides))
}

#[test]
fn a_copy_is_equal(rt: HostRuntime) -> Result<(), Fail> {
    let alloc = rt.alloc();
    for number in 0..31 {
        let sides = sides(alloc, number)?;
        let body = body(alloc, number)?;
        assert!(rt; is_copied(alloc, &Axiom { body, sides })?, "{number}");
    }
    Ok(())
}
