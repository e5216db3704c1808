//! Small ontologies, and what is derived in them.
ghost use Rattle.std.specs.Prelude.{◌≡◌, ◌≤◌, IfOk, IsTrue};
ghost use Rattle.owl_axioms.specs.Made.{IsProperExpr, is_proper_unordered};
ghost use Rattle.el_part.specs.Part.{FitsPool};
ghost use Rattle.rel_io.specs.Texts.{is_clean_iri};

use el_part::{ElPart, el_part};
use el_saturate::{SatFault, Table, saturate};
use expr_pool::Pool;
use hash_key::HashKey;
use owl_axioms::{Body, ClassExpr, Kind, Name, and_of, axiom_of};
use owl_ontology::{Ontology, Origin};
use rel_io::{Boxed, Iri, NoMemory};
use std::alloc::Global;
use std::test::Fail;

/// The letter, or e where it is no small letter.
fn small(letter: u8) -> u8
    ensures low { 97 ≤ result }
    ensures high { result ≤ 122 }
{
    if letter < 97 || letter > 122 {
        101
    } else {
        letter
    }
}

/// The IRI of one letter.
#[tactic(auto, using(crate::proofs::Letters::letter_clean))]
fn iri(alloc: Global, letter: u8) -> Result<Iri, NoMemory>
    requires low { 97 ≤ letter }
    requires high { letter ≤ 122 }
    ensures { IfOk result (λ made. IsTrue (is_clean_iri made)) }
{
    Iri::from_slice(alloc, &[letter])
}

/// The class of a letter, or the class e.
#[tactic(auto, using(crate::proofs::Letters::letter_class))]
fn class(alloc: Global, letter: u8) -> Result<ClassExpr, NoMemory>
    ensures { IfOk result (λ made. IsProperExpr made) }
{
    let letter = small(letter);
    let iri = Iri::from_slice(alloc, &[letter])?;
    Ok(ClassExpr::Class(iri))
}

/// What has a filler in the class of a letter, by the role of a letter.
#[tactic(auto, using(crate::proofs::Letters::some_proper))]
fn some_of(alloc: Global, role: u8, filler: ClassExpr) -> Result<ClassExpr, NoMemory>
    requires low { 97 ≤ role }
    requires high { role ≤ 122 }
    requires proper { IsProperExpr filler }
    ensures { IfOk result (λ made. IsProperExpr made) }
{
    let role = iri(alloc, role)?;
    let part = Boxed::new(alloc, filler)?;
    Ok(ClassExpr::Some(role, part))
}

/// What has a filler in the class of one letter, by the role of another.
fn some_class(alloc: Global, role: u8, letter: u8) -> Result<ClassExpr, NoMemory>
    requires low { 97 ≤ role }
    requires high { role ≤ 122 }
    ensures { IfOk result (λ made. IsProperExpr made) }
{
    let filler = class(alloc, letter)?;
    some_of(alloc, role, filler)
}

/// The intersection of the classes a and b.
fn both(alloc: Global) -> Result<ClassExpr, NoMemory>
    ensures { IfOk result (λ made. IsProperExpr made) }
{
    let a = class(alloc, b'a')?;
    let b = class(alloc, b'b')?;
    let operands = Vec::from_array(alloc, [a, b])?;
    and_of(alloc, operands)
}

/// The intersection of the class a and what has some b by r.
fn with_some(alloc: Global) -> Result<ClassExpr, NoMemory>
    ensures { IfOk result (λ made. IsProperExpr made) }
{
    let a = class(alloc, b'a')?;
    let b = some_class(alloc, b'r', b'b')?;
    let operands = Vec::from_array(alloc, [a, b])?;
    and_of(alloc, operands)
}

/// The expression of a letter: T and N are Thing and Nothing, A, B and C what has some a, b or c by r, S what has some b
/// by s, Z what has some Nothing by r, I the intersection of a and b, W that of a and B, and each other letter a class.
#[tactic(auto, using(owl_axioms::proofs::Layers::proper_of_thing, owl_axioms::proofs::Layers::proper_of_nothing))]
fn expr(alloc: Global, letter: u8) -> Result<ClassExpr, NoMemory>
    ensures { IfOk result (λ made. IsProperExpr made) }
{
    match letter {
        b'T' => Ok(ClassExpr::Thing),
        b'N' => Ok(ClassExpr::Nothing),
        b'I' => both(alloc),
        b'W' => with_some(alloc),
        b'Z' => some_of(alloc, b'r', ClassExpr::Nothing),
        b'A' => some_class(alloc, b'r', b'a'),
        b'B' => some_class(alloc, b'r', b'b'),
        b'C' => some_class(alloc, b'r', b'c'),
        b'S' => some_class(alloc, b's', b'b'),
        _ => class(alloc, letter),
    }
}

/// The expressions of two letters.
fn two(alloc: Global, one: u8, other: u8) -> Result<(ClassExpr, ClassExpr), NoMemory>
    ensures first { IfOk result (λ made. IsProperExpr made.0) }
    ensures second { IfOk result (λ made. IsProperExpr made.1) }
{
    let first = expr(alloc, one)?;
    let second = expr(alloc, other)?;
    Ok((first, second))
}

/// An axiom of two expressions: of `=` an equivalence, of `|` a disjointness, and else an inclusion.
#[tactic(auto, using(crate::proofs::Letters::sub_proper, crate::proofs::Letters::equiv_proper, crate::proofs::Letters::disjoint_proper))]
fn of_classes(alloc: Global, kind: u8, one: u8, other: u8) -> Result<Body, NoMemory>
    ensures { IfOk result (λ made. IsTrue (is_proper_unordered made)) }
{
    let pair = two(alloc, one, other)?;
    match kind {
        b'=' => Ok(Body::Equiv(pair.0, pair.1)),
        b'|' => Ok(Body::Disjoint(pair.0, pair.1)),
        _ => Ok(Body::Sub(pair.0, pair.1)),
    }
}

/// That the class of a letter is the domain of s or, of `g`, the range of r.
#[tactic(auto, using(crate::proofs::Letters::domain_proper, crate::proofs::Letters::range_proper))]
fn of_ends(alloc: Global, kind: u8, letter: u8) -> Result<Body, NoMemory>
    ensures { IfOk result (λ made. IsTrue (is_proper_unordered made)) }
{
    let class = expr(alloc, letter)?;
    if kind == b'g' {
        let role = iri(alloc, b'r')?;
        return Ok(Body::Range(role, class));
    }
    let role = iri(alloc, b's')?;
    Ok(Body::Domain(role, class))
}

/// That r is a subrole of s or, of `t`, transitive.
#[tactic(auto, using(crate::proofs::Letters::role_proper, crate::proofs::Letters::transitive_proper))]
fn of_roles(alloc: Global, kind: u8) -> Result<Body, NoMemory>
    ensures { IfOk result (λ made. IsTrue (is_proper_unordered made)) }
{
    let role = iri(alloc, b'r')?;
    if kind == b't' {
        return Ok(Body::Transitive(role));
    }
    let other = iri(alloc, b's')?;
    Ok(Body::SubRole(role, other))
}

/// That the class of a letter is declared.
#[tactic(auto, using(crate::proofs::Letters::name_proper))]
fn declared(alloc: Global, letter: u8) -> Result<Body, NoMemory>
    ensures { IfOk result (λ made. IsTrue (is_proper_unordered made)) }
{
    let iri = iri(alloc, small(letter))?;
    let name = Name {
        kind: Kind::Class,
        iri,
    };
    Ok(Body::Declaration(name))
}

/// What an axiom of three letters says: `<`, `=` and `|` of two expressions, `d` that the second is the domain of s, `g`
/// that it is the range of r, `R` that r is a subrole of s, `t` that r is transitive, `D` that the class of the second is declared.
pub fn said(alloc: Global, kind: u8, one: u8, other: u8) -> Result<Body, NoMemory>
    ensures { IfOk result (λ made. IsTrue (is_proper_unordered made)) }
{
    match kind {
        b'd' => of_ends(alloc, kind, other),
        b'g' => of_ends(alloc, kind, other),
        b'R' => of_roles(alloc, kind),
        b't' => of_roles(alloc, kind),
        b'D' => declared(alloc, other),
        _ => of_classes(alloc, kind, one, other),
    }
}

/// One axiom more.
fn add(alloc: Global, ontology: &mut Ontology, kind: u8, one: u8, two: u8) -> Result<(), NoMemory> {
    let body = said(alloc, kind, one, two)?;
    let made = axiom_of(alloc, body, Vec::new(alloc))?;
    ontology.add(made, Origin { file: 0, line: 0 })?;
    Ok(())
}

/// The ontology of some axioms.
pub fn ontology_of(alloc: Global, axioms: &[(u8, u8, u8)]) -> Result<Ontology, NoMemory> {
    let mut ontology = Ontology::new(alloc, HashKey::new(7), None)?;
    for (kind, one, two) in axioms {
        add(alloc, &mut ontology, *kind, *one, *two)?;
    }
    Ok(ontology)
}

/// Whether the expression of one letter is below that of another.
fn is_below(
    alloc: Global,
    pool: &mut Pool,
    table: &Table,
    one: u8,
    two: u8,
) -> Result<bool, NoMemory> {
    let lower = expr(alloc, one)?;
    let low = pool.intern(&lower);
    drop(lower);
    let upper = expr(alloc, two)?;
    let high = pool.intern(&upper);
    drop(upper);
    Ok(table.below(low?, high?))
}

/// Whether each of the first pairs is below, and none of the others.
fn are_below(
    alloc: Global,
    pool: &mut Pool,
    table: &Table,
    pairs: &[(u8, u8, bool)],
) -> Result<bool, NoMemory> {
    let mut as_wanted = true;
    for (one, two, wanted) in pairs {
        as_wanted &= is_below(alloc, pool, table, *one, *two)? == *wanted;
    }
    Ok(as_wanted)
}

/// Whether there are more facts than one less than this number.
fn are_too_many(alloc: Global, part: &ElPart, pool: &Pool, facts: u64) -> Result<bool, NoMemory>
    requires { FitsPool pool.now part.now }
{
    if facts == 0 {
        return Ok(false);
    }
    match saturate(alloc, part, pool, facts - 1) {
        Err(SatFault::TooManyFacts { limit }) => Ok(limit == facts - 1),
        Err(SatFault::NoMemory) => Err(NoMemory),
        Ok(_) => Ok(false),
    }
}

/// Whether one fact less than this number is too small a limit, and so is none.
fn is_limited(alloc: Global, part: &ElPart, pool: &Pool, facts: u64) -> Result<bool, NoMemory>
    requires { FitsPool pool.now part.now }
{
    Ok(are_too_many(alloc, part, pool, facts)? && are_too_many(alloc, part, pool, 1)?)
}

/// Whether an ontology has so many derived facts and unused axioms, and these pairs.
fn derives(
    alloc: Global,
    axioms: &[(u8, u8, u8)],
    facts: u64,
    unused: u64,
    pairs: &[(u8, u8, bool)],
) -> Result<bool, NoMemory> {
    let mut pool = Pool::new(alloc, HashKey::new(7))?;
    let ontology = ontology_of(alloc, axioms)?;
    let part = el_part(alloc, &ontology, &mut pool)?;
    if part.unused() != unused || !is_limited(alloc, &part, &pool, facts)? {
        return Ok(false);
    }
    match saturate(alloc, &part, &pool, facts) {
        Ok(table) => Ok(table.facts() == facts && are_below(alloc, &mut pool, &table, pairs)?),
        Err(_) => Ok(false),
    }
}

/// Told inclusions, equal classes, and what is left out.
#[test]
fn classes_are_derived(rt: HostRuntime) -> Result<(), Fail> {
    let alloc = rt.alloc();
    let told = [(b'<', b'a', b'b'), (b'<', b'b', b'c')];
    let above = [(b'a', b'c', true), (b'c', b'a', false)];
    let as_told = derives(alloc, told.as_slice(), 12, 0, above.as_slice())?;
    assert!(rt; as_told);
    let equal = [(b'=', b'a', b'b'), (b'D', b'c', b'c')];
    let both = [(b'b', b'a', true), (b'c', b'a', false), (b'c', b'T', true)];
    let are_equal = derives(alloc, equal.as_slice(), 11, 0, both.as_slice())?;
    assert!(rt; are_equal);
    let ranged = [(b'<', b'a', b'b'), (b'g', b'r', b'a')];
    let one_way = [(b'a', b'b', true), (b'b', b'a', false)];
    let left_out = derives(alloc, ranged.as_slice(), 8, 1, one_way.as_slice())?;
    assert!(rt; left_out);
    Ok(())
}

/// An intersection, restrictions, and Nothing as a filler.
#[test]
fn expressions_are_derived(rt: HostRuntime) -> Result<(), Fail> {
    let alloc = rt.alloc();
    let operands = [(b'<', b'I', b'c'), (b'<', b'd', b'a'), (b'<', b'd', b'b')];
    let below = [(b'd', b'c', true), (b'I', b'b', true), (b'a', b'c', false)];
    let intersection = derives(alloc, operands.as_slice(), 20, 0, below.as_slice())?;
    assert!(rt; intersection);
    let fillers = [(b'<', b'a', b'B'), (b'<', b'b', b'c'), (b'<', b'C', b'd')];
    let linked = [(b'a', b'd', true), (b'B', b'C', true), (b'C', b'B', false)];
    let restriction = derives(alloc, fillers.as_slice(), 27, 0, linked.as_slice())?;
    assert!(rt; restriction);
    let none = [(b'<', b'a', b'Z')];
    let empty = [(b'a', b'N', true), (b'T', b'N', false)];
    let nothing = derives(alloc, none.as_slice(), 12, 0, empty.as_slice())?;
    assert!(rt; nothing);
    Ok(())
}

/// A transitive role, a subrole with a domain, and disjoint classes.
#[test]
fn links_are_derived(rt: HostRuntime) -> Result<(), Fail> {
    let alloc = rt.alloc();
    let chain = [(b't', b'r', b'r'), (b'<', b'a', b'B'), (b'<', b'b', b'C')];
    let ends = [(b'a', b'C', true), (b'C', b'B', false)];
    let transitive = derives(alloc, chain.as_slice(), 23, 0, ends.as_slice())?;
    assert!(rt; transitive);
    let roles = [(b'<', b'a', b'B'), (b'R', b'r', b's'), (b'd', b's', b'd')];
    let starts = [(b'a', b'd', true), (b'b', b'd', false)];
    let domain = derives(alloc, roles.as_slice(), 18, 0, starts.as_slice())?;
    assert!(rt; domain);
    let apart = [
        (b'|', b'b', b'a'),
        (b'<', b'c', b'a'),
        (b'<', b'c', b'b'),
        (b'<', b'd', b'C'),
    ];
    let empty = [(b'd', b'N', true), (b'a', b'N', false)];
    let disjoint = derives(alloc, apart.as_slice(), 21, 0, empty.as_slice())?;
    assert!(rt; disjoint);
    Ok(())
}

/// A definition, and a chain of parts by a transitive role: the least ontology that all steps of a release change.
#[test]
fn a_small_release_is_derived(rt: HostRuntime) -> Result<(), Fail> {
    let alloc = rt.alloc();
    let axioms = [
        (b'=', b'w', b'W'),
        (b'<', b'd', b'a'),
        (b'<', b'd', b'C'),
        (b'<', b'c', b'B'),
        (b't', b'r', b'r'),
        (b'D', b'b', b'b'),
    ];
    let pairs = [(b'd', b'w', true), (b'd', b'B', true), (b'c', b'w', false)];
    let release = derives(alloc, axioms.as_slice(), 40, 0, pairs.as_slice())?;
    assert!(rt; release);
    Ok(())
}
