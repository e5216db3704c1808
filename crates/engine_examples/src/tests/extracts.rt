//! Small ontologies with what each method leaves of them for a seed.
ghost use Rattle.std.specs.Prelude.{IfOk, IsTrue};
ghost use Rattle.rel_io.specs.Texts.{is_clean_iri};
ghost use Rattle.owl_axioms.specs.Made.{is_proper_unordered};
ghost use Rattle.owl_axioms.specs.Proper.{IsProper};

use super::steps::{axiom, letter, sides};
use chain_words::Method;
use extract_step::{Extracted, extract};
use hash_key::HashKey;
use owl_axioms::{Axiom, Body, Kind, Name, NoteValue, Sig, axiom_of, owl_thing};
use owl_ontology::{Ontology, Origin};
use rel_io::{Bytes, Dup, Iri, Items, NoMemory};
use seed_list::Seed;
use std::alloc::Global;
use std::test::Fail;

/// The IRI of a sign: that of owl:Thing for `*`, and else a letter from a to p.
fn iri(alloc: Global, sign: u8) -> Result<Iri, NoMemory>
    ensures { IfOk result (λ iri. IsTrue (is_clean_iri iri)) }
{
    if sign == b'*' {
        thing(alloc)
    } else {
        letter(alloc, sign % 32 + 15)
    }
}

/// The IRI of owl:Thing.
fn thing(alloc: Global) -> Result<Iri, NoMemory>
    ensures { IfOk result (λ iri. IsTrue (is_clean_iri iri)) }
{
    let iri = Iri::from_slice(alloc, owl_thing())?;
    Ok(iri)
}

/// The kind of a sign: `C` for a class, `R` for a role, `I` for an individual, and else an annotation property.
fn kind(sign: u8) -> Kind {
    match sign {
        b'C' => Kind::Class,
        b'R' => Kind::Role,
        b'I' => Kind::Individual,
        _ => Kind::AnnotationProperty,
    }
}

/// An entity is declared; or, where there is a text, it is said of it.
#[tactic(auto, using(crate::proofs::Proper::declared_proper, crate::proofs::Proper::noted_proper))]
fn said(alloc: Global, name: u8, sign: u8, text: &[u8]) -> Result<Body, NoMemory>
    ensures { IfOk result (λ said. IsTrue (is_proper_unordered said)) }
{
    let subject = Name {
        kind: kind(sign),
        iri: iri(alloc, name)?,
    };
    if text.is_empty() {
        return Ok(Body::Declaration(subject));
    }
    let property = letter(alloc, 0)?;
    let value = NoteValue::Text(Bytes::from_slice(alloc, text)?);
    Ok(Body::Note(subject, property, value))
}

/// A text is said of the ontology.
#[tactic(auto, using(crate::proofs::Proper::of_ontology_proper))]
fn said_of_ontology(alloc: Global, text: &[u8]) -> Result<Body, NoMemory>
    ensures { IfOk result (λ said. IsTrue (is_proper_unordered said)) }
{
    let property = letter(alloc, 0)?;
    let value = NoteValue::Text(Bytes::from_slice(alloc, text)?);
    Ok(Body::OntologyNote(property, value))
}

/// An axiom, as a row of a table has it: a logical one for `<`, `=` and `|`, what is said of the ontology for `O`, and else
/// what is declared or said of an entity.
fn row_axiom(alloc: Global, row: &(u8, u8, &[u8], bool)) -> Result<Axiom, NoMemory>
    ensures { IfOk result IsProper }
{
    match row.1 {
        b'<' | b'=' | b'|' => axiom(alloc, row),
        b'O' => axiom_of(alloc, said_of_ontology(alloc, row.2)?, sides(alloc, row.3)?),
        _ => axiom_of(
            alloc,
            said(alloc, row.0, row.1, row.2)?,
            sides(alloc, row.3)?,
        ),
    }
}

/// Adds an axiom.
fn put(
    alloc: Global,
    ontology: &mut Ontology,
    row: &(u8, u8, &[u8], bool),
) -> Result<bool, NoMemory> {
    let axiom = row_axiom(alloc, row)?;
    ontology.add(axiom, Origin { file: 0, line: 1 })
}

/// The ontology of these axioms.
fn ontology(alloc: Global, rows: &[(u8, u8, &[u8], bool)]) -> Result<Ontology, NoMemory> {
    let mut ontology = Ontology::new(alloc, HashKey::new(7), None)?;
    for row in rows {
        put(alloc, &mut ontology, row)?;
    }
    Ok(ontology)
}

/// Adds the class, the role and the individual of a sign.
fn put_names(alloc: Global, sig: &mut Sig, sign: u8) -> Result<(), NoMemory> {
    for kind in [Kind::Class, Kind::Role, Kind::Individual] {
        let iri = iri(alloc, sign)?;
        sig.add(&Name { kind, iri })?;
    }
    Ok(())
}

/// The seed of these signs.
fn seed(alloc: Global, signs: &[u8]) -> Result<Seed, NoMemory> {
    let mut sig = Sig::new(alloc, HashKey::new(7))?;
    let mut iris = Vec::new(alloc);
    for sign in signs {
        put_names(alloc, &mut sig, *sign)?;
        iris.push(iri(alloc, *sign)?)?;
    }
    Ok(Seed {
        sig,
        iris: Items::from_vec(iris),
    })
}

/// Whether the axiom of a row is there exactly where its mark is `1`.
fn is_as_marked(
    alloc: Global,
    ontology: &Ontology,
    row: &(u8, u8, &[u8], bool),
    mark: u8,
) -> Result<bool, NoMemory> {
    let axiom = row_axiom(alloc, row)?;
    let is_held = ontology.holds(&axiom);
    drop(axiom);
    Ok(is_held == (mark == b'1'))
}

/// Whether exactly the axioms are left whose mark is `1`.
fn are_as_marked(
    alloc: Global,
    ontology: &Ontology,
    rows: &[(u8, u8, &[u8], bool)],
    marks: &[u8],
) -> Result<bool, NoMemory> {
    let left = marks.iter().filter(|mark| **mark == b'1').count();
    let mut as_marked = ontology.len() == left && rows.len() == marks.len();
    for (row, mark) in rows.iter().zip(marks) {
        as_marked &= is_as_marked(alloc, ontology, row, *mark)?;
    }
    Ok(as_marked)
}

/// Whether an extract of these axioms says this, and leaves those that are marked.
fn is_extracted(
    alloc: Global,
    rows: &[(u8, u8, &[u8], bool)],
    method: Method,
    signs: &[u8],
    wanted: Extracted,
    marks: &[u8],
) -> Result<bool, NoMemory> {
    let mut ontology = ontology(alloc, rows)?;
    let seed = seed(alloc, signs)?;
    let said = extract(alloc, &mut ontology, method, &seed)?;
    drop(seed);
    let leaves = are_as_marked(alloc, &ontology, rows, marks)?;
    Ok(leaves && said == wanted.copy(alloc)?)
}

/// Axioms, a method and a seed; how many of its IRIs are unknown, how many rounds there are, and a mark for each axiom that
/// is left.
#[test]
fn modules_are_extracted(rt: HostRuntime) -> Result<(), Fail> {
    let alloc = rt.alloc();
    let chain = [
        (b'a', b'<', b"b".as_slice(), false),
        (b'b', b'<', b"c".as_slice(), false),
        (b'c', b'=', b"eF".as_slice(), false),
        (b'd', b'<', b"a".as_slice(), false),
        (b'a', b'C', b"".as_slice(), false),
        (b'b', b'C', b"".as_slice(), false),
        (b'c', b'C', b"".as_slice(), false),
        (b'd', b'C', b"".as_slice(), false),
        (b'e', b'C', b"".as_slice(), false),
        (b'f', b'C', b"".as_slice(), false),
        (b'p', b'R', b"".as_slice(), false),
    ];
    let thing = [
        (b'*', b'<', b"a".as_slice(), false),
        (b'*', b'C', b"".as_slice(), false),
        (b'a', b'C', b"".as_slice(), false),
        (b'i', b'C', b"".as_slice(), false),
    ];
    let notes = [
        (b'a', b'<', b"b".as_slice(), true),
        (b'a', b'C', b"".as_slice(), true),
        (b'c', b'C', b"".as_slice(), false),
        (b'a', b'C', b"of a class in the seed".as_slice(), false),
        (b'b', b'C', b"of a class in the module".as_slice(), true),
        (b'b', b'I', b"of another entity".as_slice(), false),
        (b'c', b'C', b"of a class outside".as_slice(), false),
        (b'o', b'Q', b"".as_slice(), false),
        (b'o', b'Q', b"of an annotation property".as_slice(), false),
        (b'a', b'O', b"of the ontology".as_slice(), false),
    ];
    let silent = [
        (b'a', b'C', b"".as_slice(), false),
        (b'n', b'C', b"of a class".as_slice(), false),
        (b'o', b'Q', b"".as_slice(), false),
        (b'a', b'O', b"of the ontology".as_slice(), false),
    ];
    for (about, rows, method, seed, unknown, rounds, marks) in [
        (
            "the bottom module",
            chain.as_slice(),
            Method::Bot,
            b"ab".as_slice(),
            0,
            1,
            b"11101110111".as_slice(),
        ),
        (
            "the alternation, which drops more",
            chain.as_slice(),
            Method::Star,
            b"ab".as_slice(),
            0,
            2,
            b"10001100000".as_slice(),
        ),
        (
            "the alternation, where the seed reaches further",
            chain.as_slice(),
            Method::Star,
            b"ac".as_slice(),
            0,
            2,
            b"11101110111".as_slice(),
        ),
        (
            "a term that is unknown",
            chain.as_slice(),
            Method::Bot,
            b"h".as_slice(),
            1,
            1,
            b"00000000000".as_slice(),
        ),
        (
            "a role, and the classes of a definition",
            chain.as_slice(),
            Method::Bot,
            b"efp".as_slice(),
            0,
            1,
            b"00100010111".as_slice(),
        ),
        (
            "the top module",
            chain.as_slice(),
            Method::Top,
            b"b".as_slice(),
            0,
            1,
            b"10011101000".as_slice(),
        ),
        (
            "everything is below a class",
            thing.as_slice(),
            Method::Bot,
            b"i".as_slice(),
            0,
            1,
            b"1111".as_slice(),
        ),
        (
            "everything is below a class, by the alternation",
            thing.as_slice(),
            Method::Star,
            b"i".as_slice(),
            0,
            2,
            b"0101".as_slice(),
        ),
        (
            "declarations and notes",
            notes.as_slice(),
            Method::Bot,
            b"a".as_slice(),
            0,
            1,
            b"1101100111".as_slice(),
        ),
        (
            "no logical axiom; a declared annotation property is known, and what is only noted is not",
            silent.as_slice(),
            Method::Star,
            b"hno".as_slice(),
            2,
            1,
            b"0111".as_slice(),
        ),
    ] {
        let wanted = Extracted { unknown, rounds };
        let as_wanted = is_extracted(alloc, rows, method, seed, wanted, marks)?;
        assert!(rt; as_wanted, "{about}");
    }
    Ok(())
}
