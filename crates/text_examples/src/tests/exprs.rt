//! IRIs by a letter each, and class expressions by a sign each.
ghost use Rattle.std.specs.Prelude.{◌≤◌, IfOk, IsTrue};
ghost use Rattle.rel_io.specs.Texts.{is_clean_iri};
ghost use Rattle.owl_axioms.specs.Made.{AreProperExprs, IsProperExpr};

use iri_map::{iri_is_clean, iri_of};
use owl_axioms::{ClassExpr, and_of, class_named, or_of};
use rel_io::{Boxed, Bytes, Iri, NoMemory};
use std::alloc::Global;

/// The sign at a place of some signs, or `a` where there is none.
pub fn sign_at(signs: &[u8], at: usize) -> u8 {
    if at < signs.len() { signs[at] } else { b'a' }
}

/// The sign, or `a` where it stands before the small letters.
fn letter_of(sign: u8) -> u8
    ensures { 97 ≤ result }
{
    if sign < 97 { 97 } else { sign }
}

/// The IRI that a sign stands for: `{` and `}` are those of the ids `EX:1` and `EX:2`, and a letter is itself, which is the
/// IRI of no id.
pub fn iri(alloc: Global, sign: u8) -> Result<Iri, NoMemory>
    ensures { IfOk result (λ iri. IsTrue (is_clean_iri iri)) }
{
    match sign {
        b'{' => named(alloc, b"EX:1"),
        b'}' => named(alloc, b"EX:2"),
        _ => of_letter(alloc, sign),
    }
}

/// The IRI of an id.
fn named(alloc: Global, id: &[u8]) -> Result<Iri, NoMemory>
    ensures { IfOk result (λ iri. IsTrue (is_clean_iri iri)) }
{
    let id = Bytes::from_slice(alloc, id)?;
    let space = Bytes::from_slice(alloc, b"ex")?;
    iri_is_clean(&id, &space);
    iri_of(alloc, &id, &space)
}

/// The IRI of one letter.
#[tactic(auto, using(crate::proofs::Proper::letter_clean))]
fn of_letter(alloc: Global, sign: u8) -> Result<Iri, NoMemory>
    ensures { IfOk result (λ iri. IsTrue (is_clean_iri iri)) }
{
    let letter = letter_of(sign);
    Iri::from_slice(alloc, &[letter])
}

/// The class of a letter.
fn class(alloc: Global, sign: u8) -> Result<ClassExpr, NoMemory>
    ensures { IfOk result IsProperExpr }
{
    Ok(class_named(iri(alloc, sign)?))
}

/// The classes of letters.
fn classes(alloc: Global, signs: &[u8]) -> Result<Vec<ClassExpr>, NoMemory>
    ensures { IfOk result (λ exprs. AreProperExprs exprs.items) }
{
    let mut exprs = Vec::new(alloc);
    for sign in signs {
        exprs.push(class(alloc, *sign)?)?;
    }
    Ok(exprs)
}

/// The intersection of the classes of letters, or their union, and with them of one expression more.
fn group(
    alloc: Global,
    is_union: bool,
    signs: &[u8],
    last: ClassExpr,
) -> Result<ClassExpr, NoMemory>
    requires { IsProperExpr last }
    ensures { IfOk result IsProperExpr }
{
    match classes(alloc, signs) {
        Ok(exprs) => group_with(alloc, is_union, exprs, last),
        Err(fault) => {
            drop(last);
            Err(fault)
        }
    }
}

/// The intersection of expressions and of one more, or their union.
fn group_with(
    alloc: Global,
    is_union: bool,
    exprs: Vec<ClassExpr>,
    last: ClassExpr,
) -> Result<ClassExpr, NoMemory>
    requires exprs { AreProperExprs exprs.items }
    requires last { IsProperExpr last }
    ensures { IfOk result IsProperExpr }
{
    let mut exprs = exprs;
    exprs.push(last)?;
    if is_union {
        or_of(alloc, exprs)
    } else {
        and_of(alloc, exprs)
    }
}

/// The complement of an expression.
#[tactic(auto, using(crate::proofs::Proper::not_proper))]
fn complement(alloc: Global, part: ClassExpr) -> Result<ClassExpr, NoMemory>
    requires { IsProperExpr part }
    ensures { IfOk result IsProperExpr }
{
    Ok(ClassExpr::Not(Boxed::new(alloc, part)?))
}

/// The restriction of a property to a filler that a sign stands for.
#[tactic(auto, using(crate::proofs::Proper::proper_restrictions))]
fn restriction(sign: u8, role: Iri, part: Boxed<ClassExpr>) -> ClassExpr
    requires role { IsTrue (is_clean_iri role) }
    requires part { IsProperExpr part }
    ensures { IsProperExpr result }
{
    match sign {
        b'S' => ClassExpr::Some(role, part),
        b'A' => ClassExpr::All(role, part),
        b'L' => ClassExpr::Min(2, role, part),
        b'M' => ClassExpr::Max(30, role, part),
        _ => ClassExpr::Exact(4294967295, role, part),
    }
}

/// The same of the property of a letter.
fn restricted(alloc: Global, sign: u8, role: u8, part: ClassExpr) -> Result<ClassExpr, NoMemory>
    requires { IsProperExpr part }
    ensures { IfOk result IsProperExpr }
{
    let part = Boxed::new(alloc, part)?;
    Ok(restriction(sign, iri(alloc, role)?, part))
}

/// What has only fillers by q that are a and b and no p of something.
#[tactic(auto, using(owl_axioms::proofs::Layers::proper_of_thing))]
fn deep(alloc: Global) -> Result<ClassExpr, NoMemory>
    ensures { IfOk result IsProperExpr }
{
    let inner = restricted(alloc, b'S', b'p', ClassExpr::Thing)?;
    let other = complement(alloc, inner)?;
    let both = group(alloc, false, b"ba", other)?;
    restricted(alloc, b'A', b'q', both)
}

/// The expression of a sign: `1` and `0` are owl:Thing and owl:Nothing, `&` and `/` the intersection and the union of a, b
/// and c, `[` and `]` those of EX:1 and EX:2, `!` the complement of a, `D` an expression with others inside, `S`, `A`, `L`,
/// `M` and `X` the restrictions of p to a, and each other sign is the class of its IRI.
#[tactic(auto, using(owl_axioms::proofs::Layers::proper_of_thing, owl_axioms::proofs::Layers::proper_of_nothing))]
pub fn expr(alloc: Global, sign: u8) -> Result<ClassExpr, NoMemory>
    ensures { IfOk result IsProperExpr }
{
    match sign {
        b'1' => Ok(ClassExpr::Thing),
        b'0' => Ok(ClassExpr::Nothing),
        b'&' => group(alloc, false, b"cba", class(alloc, b'c')?),
        b'/' => group(alloc, true, b"cba", class(alloc, b'c')?),
        b'[' => group(alloc, false, b"{", class(alloc, b'}')?),
        b']' => group(alloc, true, b"{", class(alloc, b'}')?),
        b'!' => complement(alloc, class(alloc, b'a')?),
        b'D' => deep(alloc),
        b'A'..=b'Z' => restricted(alloc, sign, b'p', class(alloc, b'a')?),
        _ => class(alloc, sign),
    }
}
