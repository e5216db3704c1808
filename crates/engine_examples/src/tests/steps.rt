//! Ontologies of a few inclusions and definitions, before the steps relax and reduce and after.
ghost use Rattle.std.specs.Prelude.{◌<◌, IfOk, IsTrue, length};
ghost use Rattle.std.specs.List.{list_all};
ghost use Rattle.rel_io.specs.Texts.{is_clean_iri};
ghost use Rattle.owl_axioms.specs.Made.{AreProperExprs, IsProperExpr, is_proper_unordered};
ghost use Rattle.owl_axioms.specs.Proper.{IsProper, is_proper_side};

use hash_key::HashKey;
use owl_axioms::{Axiom, Body, ClassExpr, NoteValue, Side, and_of, axiom_of, class_named, or_of};
use owl_ontology::{Ontology, Origin};
use reduce_edges::reduce;
use rel_io::{Boxed, Bytes, Iri, NoMemory};
use relax_axioms::relax;
use std::alloc::Global;
use std::test::Fail;

/// A letter from a to p, by its place among them, as an IRI.
pub fn letter(alloc: Global, place: u8) -> Result<Iri, NoMemory>
    ensures { IfOk result (λ iri. IsTrue (is_clean_iri iri)) }
{
    Ok(Iri::from_vec(Vec::from_slice(alloc, &[97 + place % 16])?))
}

/// The class of this letter.
fn class(alloc: Global, text: u8) -> Result<ClassExpr, NoMemory>
    ensures { IfOk result IsProperExpr }
{
    Ok(class_named(letter(alloc, text % 32 + 15)?))
}

/// What has some filler of the role p in the expression.
fn some_of(alloc: Global, part: ClassExpr) -> Result<ClassExpr, NoMemory>
    requires { IsProperExpr part }
    ensures { IfOk result IsProperExpr }
{
    let part = Boxed::new(alloc, part)?;
    Ok(ClassExpr::Some(letter(alloc, 15)?, part))
}

/// The expression of a sign: the class of a small letter, what has some filler in the class of a capital one, what has some
/// filler in such a restriction to a for `+`, and owl:Thing for `*`.
fn expr(alloc: Global, sign: u8) -> Result<ClassExpr, NoMemory>
    ensures { IfOk result IsProperExpr }
{
    match sign {
        b'*' => Ok(ClassExpr::Thing),
        b'+' => some_of(alloc, some_of(alloc, class(alloc, b'a')?)?),
        b'A'..=b'Z' => some_of(alloc, class(alloc, sign)?),
        _ => class(alloc, sign),
    }
}

/// The expressions of signs.
fn exprs(alloc: Global, signs: &[u8]) -> Result<Vec<ClassExpr>, NoMemory>
    ensures proper { IfOk result (λ exprs. AreProperExprs exprs.items) }
{
    let mut exprs = Vec::new(alloc);
    for sign in signs {
        exprs.push(expr(alloc, *sign)?)?;
    }
    Ok(exprs)
}

/// The expression of one sign, or the intersection or the union of those of several.
fn group(alloc: Global, is_union: bool, signs: &[u8]) -> Result<ClassExpr, NoMemory>
    ensures { IfOk result IsProperExpr }
{
    let exprs = exprs(alloc, signs)?;
    if exprs.is_empty() {
        return Ok(ClassExpr::Thing);
    }
    if is_union {
        or_of(alloc, exprs)
    } else {
        and_of(alloc, exprs)
    }
}

/// An annotation.
fn note(alloc: Global) -> Result<Side, NoMemory>
    ensures { IfOk result (λ side. IsTrue (is_proper_side side)) }
{
    let property = letter(alloc, 0)?;
    Ok(Side {
        property,
        value: NoteValue::Text(Bytes::from_vec(Vec::new(alloc))),
        label: None,
    })
}

/// No annotation, or one.
pub fn sides(alloc: Global, has_note: bool) -> Result<Vec<Side>, NoMemory>
    ensures { IfOk result (λ sides. IsTrue (list_all is_proper_side sides.items)) }
{
    let mut sides = Vec::new(alloc);
    if !has_note {
        return Ok(sides);
    }
    let note = note(alloc)?;
    sides.push(note)?;
    Ok(sides)
}

/// What is said of two expressions: a subclass for `<`, and else that they are equivalent.
#[tactic(auto, using(crate::proofs::Proper::sub_proper, crate::proofs::Proper::equiv_proper))]
fn said(sign: u8, sub: ClassExpr, other: ClassExpr) -> Body
    requires sub { IsProperExpr sub }
    requires other { IsProperExpr other }
    ensures { IsTrue (is_proper_unordered result) }
{
    if sign == b'<' {
        Body::Sub(sub, other)
    } else {
        Body::Equiv(sub, other)
    }
}

/// What is said of an expression and others: it is a subclass of it, or is equivalent to their intersection or union.
fn body(alloc: Global, sub: u8, sign: u8, signs: &[u8]) -> Result<Body, NoMemory>
    ensures { IfOk result (λ said. IsTrue (is_proper_unordered said)) }
{
    let sub = expr(alloc, sub)?;
    let other = group(alloc, sign == b'|', signs)?;
    Ok(said(sign, sub, other))
}

/// An axiom, as a row of a table has it.
pub fn axiom(alloc: Global, row: &(u8, u8, &[u8], bool)) -> Result<Axiom, NoMemory>
    ensures { IfOk result IsProper }
{
    let sides = sides(alloc, row.3)?;
    let body = body(alloc, row.0, row.1, row.2)?;
    axiom_of(alloc, body, sides)
}

/// Adds an axiom.
fn put(
    alloc: Global,
    ontology: &mut Ontology,
    row: &(u8, u8, &[u8], bool),
) -> Result<bool, NoMemory> {
    let axiom = axiom(alloc, row)?;
    ontology.add(axiom, Origin { file: 0, line: 1 })
}

/// The ontology of these axioms.
fn ontology(alloc: Global, rows: &[(u8, u8, &[u8], bool)]) -> Result<Ontology, NoMemory> {
    let mut ontology = Ontology::new(alloc, HashKey::new(7), None)?;
    for row in rows {
        put(alloc, &mut ontology, row)?;
    }
    Ok(ontology)
}

/// Whether the ontology has an axiom.
fn has(alloc: Global, ontology: &Ontology, row: &(u8, u8, &[u8], bool)) -> Result<bool, NoMemory> {
    let axiom = axiom(alloc, row)?;
    let is_held = ontology.holds(&axiom);
    drop(axiom);
    Ok(is_held)
}

/// Whether the ontology has these axioms, and no other.
fn has_exactly(
    alloc: Global,
    ontology: &Ontology,
    rows: &[(u8, u8, &[u8], bool)],
) -> Result<bool, NoMemory> {
    let mut has_all = ontology.len() == rows.len();
    for row in rows {
        has_all &= has(alloc, ontology, row)?;
    }
    Ok(has_all)
}

/// Whether relaxing these axioms adds so many, and leaves these.
fn is_relaxed(
    alloc: Global,
    rows: &[(u8, u8, &[u8], bool)],
    count: u64,
    wanted: &[(u8, u8, &[u8], bool)],
) -> Result<bool, NoMemory> {
    let mut ontology = ontology(alloc, rows)?;
    let added = relax(alloc, &mut ontology)?;
    let leaves = has_exactly(alloc, &ontology, wanted)?;
    Ok(leaves && added == count)
}

/// Whether reducing these axioms takes so many away, and leaves these.
fn is_reduced(
    alloc: Global,
    rows: &[(u8, u8, &[u8], bool)],
    keep_annotated: bool,
    count: u64,
    wanted: &[(u8, u8, &[u8], bool)],
) -> Result<bool, NoMemory> {
    let mut ontology = ontology(alloc, rows)?;
    let gone = reduce(alloc, &mut ontology, keep_annotated)?;
    let leaves = has_exactly(alloc, &ontology, wanted)?;
    Ok(leaves && gone == count)
}

/// Axioms, how many relaxing adds, and the axioms afterwards.
#[test]
fn definitions_are_relaxed(rt: HostRuntime) -> Result<(), Fail> {
    let alloc = rt.alloc();
    for (about, rows, count, wanted) in [
        (
            "a class and a restriction",
            [(b'a', b'=', b"bC".as_slice(), false)].as_slice(),
            2,
            [
                (b'a', b'=', b"bC".as_slice(), false),
                (b'a', b'<', b"b".as_slice(), false),
                (b'a', b'<', b"C".as_slice(), false),
            ]
            .as_slice(),
        ),
        (
            "an inclusion that stands with an annotation",
            [
                (b'a', b'<', b"b".as_slice(), true),
                (b'a', b'=', b"bC".as_slice(), true),
            ]
            .as_slice(),
            1,
            [
                (b'a', b'=', b"bC".as_slice(), true),
                (b'a', b'<', b"b".as_slice(), true),
                (b'a', b'<', b"C".as_slice(), false),
            ]
            .as_slice(),
        ),
        (
            "Thing as an operand",
            [(b'a', b'=', b"*b".as_slice(), false)].as_slice(),
            1,
            [
                (b'a', b'=', b"*b".as_slice(), false),
                (b'a', b'<', b"b".as_slice(), false),
            ]
            .as_slice(),
        ),
        (
            "Thing as what is defined",
            [(b'*', b'=', b"bc".as_slice(), false)].as_slice(),
            0,
            [(b'*', b'=', b"bc".as_slice(), false)].as_slice(),
        ),
        (
            "a union",
            [(b'a', b'|', b"bC".as_slice(), false)].as_slice(),
            0,
            [(b'a', b'|', b"bC".as_slice(), false)].as_slice(),
        ),
        (
            "a nested restriction",
            [(b'a', b'=', b"b+".as_slice(), false)].as_slice(),
            1,
            [
                (b'a', b'=', b"b+".as_slice(), false),
                (b'a', b'<', b"b".as_slice(), false),
            ]
            .as_slice(),
        ),
        (
            "two definitions with one operand in common, and a class in its own",
            [
                (b'a', b'=', b"bc".as_slice(), false),
                (b'a', b'=', b"ca".as_slice(), false),
            ]
            .as_slice(),
            3,
            [
                (b'a', b'=', b"bc".as_slice(), false),
                (b'a', b'=', b"ca".as_slice(), false),
                (b'a', b'<', b"a".as_slice(), false),
                (b'a', b'<', b"b".as_slice(), false),
                (b'a', b'<', b"c".as_slice(), false),
            ]
            .as_slice(),
        ),
        (
            "an inclusion in an intersection",
            [(b'a', b'<', b"bc".as_slice(), false)].as_slice(),
            0,
            [(b'a', b'<', b"bc".as_slice(), false)].as_slice(),
        ),
    ] {
        let as_wanted = is_relaxed(alloc, rows, count, wanted)?;
        assert!(rt; as_wanted, "{about}");
    }
    Ok(())
}

/// Inclusions, whether annotated ones are to stay, how many reducing takes away, and the axioms afterwards.
#[test]
fn inclusions_are_reduced(rt: HostRuntime) -> Result<(), Fail> {
    let alloc = rt.alloc();
    for (about, keep_annotated, rows, count, wanted) in [
        (
            "two classes in a cycle below one",
            false,
            [
                (b'a', b'<', b"b".as_slice(), false),
                (b'b', b'<', b"a".as_slice(), false),
                (b'a', b'<', b"c".as_slice(), false),
                (b'b', b'<', b"c".as_slice(), false),
            ]
            .as_slice(),
            0,
            [
                (b'a', b'<', b"b".as_slice(), false),
                (b'b', b'<', b"a".as_slice(), false),
                (b'a', b'<', b"c".as_slice(), false),
                (b'b', b'<', b"c".as_slice(), false),
            ]
            .as_slice(),
        ),
        (
            "an annotated one over a class between",
            false,
            [
                (b'a', b'<', b"b".as_slice(), false),
                (b'b', b'<', b"a".as_slice(), false),
                (b'a', b'<', b"c".as_slice(), false),
                (b'b', b'<', b"c".as_slice(), false),
                (b'c', b'<', b"d".as_slice(), false),
                (b'a', b'<', b"d".as_slice(), true),
            ]
            .as_slice(),
            1,
            [
                (b'a', b'<', b"b".as_slice(), false),
                (b'b', b'<', b"a".as_slice(), false),
                (b'a', b'<', b"c".as_slice(), false),
                (b'b', b'<', b"c".as_slice(), false),
                (b'c', b'<', b"d".as_slice(), false),
            ]
            .as_slice(),
        ),
        (
            "the same where annotated ones are to stay",
            true,
            [
                (b'c', b'<', b"d".as_slice(), false),
                (b'a', b'<', b"c".as_slice(), false),
                (b'a', b'<', b"d".as_slice(), true),
                (b'a', b'<', b"d".as_slice(), false),
            ]
            .as_slice(),
            1,
            [
                (b'c', b'<', b"d".as_slice(), false),
                (b'a', b'<', b"c".as_slice(), false),
                (b'a', b'<', b"d".as_slice(), true),
            ]
            .as_slice(),
        ),
        (
            "a loop, and one inclusion with an annotation and without",
            false,
            [
                (b'a', b'<', b"a".as_slice(), true),
                (b'a', b'<', b"b".as_slice(), false),
                (b'a', b'<', b"b".as_slice(), true),
            ]
            .as_slice(),
            1,
            [
                (b'a', b'<', b"b".as_slice(), false),
                (b'a', b'<', b"b".as_slice(), true),
            ]
            .as_slice(),
        ),
        (
            "a diamond, a cycle above it, and what is no inclusion between classes",
            false,
            [
                (b'a', b'<', b"d".as_slice(), false),
                (b'a', b'<', b"b".as_slice(), false),
                (b'a', b'<', b"c".as_slice(), false),
                (b'b', b'<', b"d".as_slice(), false),
                (b'c', b'<', b"d".as_slice(), false),
                (b'd', b'<', b"e".as_slice(), false),
                (b'e', b'<', b"d".as_slice(), false),
                (b'b', b'<', b"e".as_slice(), false),
                (b'a', b'<', b"D".as_slice(), false),
                (b'b', b'<', b"D".as_slice(), false),
                (b'a', b'=', b"b".as_slice(), false),
            ]
            .as_slice(),
            1,
            [
                (b'a', b'<', b"b".as_slice(), false),
                (b'a', b'<', b"c".as_slice(), false),
                (b'b', b'<', b"d".as_slice(), false),
                (b'c', b'<', b"d".as_slice(), false),
                (b'd', b'<', b"e".as_slice(), false),
                (b'e', b'<', b"d".as_slice(), false),
                (b'b', b'<', b"e".as_slice(), false),
                (b'a', b'<', b"D".as_slice(), false),
                (b'b', b'<', b"D".as_slice(), false),
                (b'a', b'=', b"b".as_slice(), false),
            ]
            .as_slice(),
        ),
        (
            "two cycles with inclusions between",
            false,
            [
                (b'a', b'<', b"b".as_slice(), false),
                (b'b', b'<', b"a".as_slice(), false),
                (b'c', b'<', b"d".as_slice(), false),
                (b'd', b'<', b"c".as_slice(), false),
                (b'b', b'<', b"c".as_slice(), false),
                (b'a', b'<', b"d".as_slice(), false),
            ]
            .as_slice(),
            0,
            [
                (b'a', b'<', b"b".as_slice(), false),
                (b'b', b'<', b"a".as_slice(), false),
                (b'c', b'<', b"d".as_slice(), false),
                (b'd', b'<', b"c".as_slice(), false),
                (b'b', b'<', b"c".as_slice(), false),
                (b'a', b'<', b"d".as_slice(), false),
            ]
            .as_slice(),
        ),
    ] {
        let as_wanted = is_reduced(alloc, rows, keep_annotated, count, wanted)?;
        assert!(rt; as_wanted, "{about}");
    }
    Ok(())
}
