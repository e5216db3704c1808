//! Axioms of each kind, as the table of functional-style texts writes them.
ghost use Rattle.std.specs.Prelude.{IfOk, IsTrue};
ghost use Rattle.std.specs.List.{list_all};
ghost use Rattle.rel_io.specs.Texts.{is_clean_iri};
ghost use Rattle.owl_axioms.specs.Made.{IsProperExpr, is_proper_unordered};
ghost use Rattle.owl_axioms.specs.Proper.{IsProper, is_proper_side, is_proper_value};

use super::exprs::{expr, iri, sign_at};
use document_examples::bytes_of;
use owl_axioms::{Axiom, Body, ClassExpr, Kind, Name, NoteValue, Side, axiom_of};
use rel_io::{Bytes, Iri, NoMemory};
use std::alloc::Global;

/// An axiom: a word for its kind, its parts, a sign each, and behind a `%` each of its annotations.
pub fn axiom(alloc: Global, text: &str) -> Result<Axiom, NoMemory>
    ensures { IfOk result IsProper }
{
    let (said, notes) = text.split_once('%').unwrap_or((text, ""));
    let (word, parts) = said.split_once(' ').unwrap_or((said, ""));
    let sides = sides(alloc, notes)?;
    let body = body(alloc, word, parts)?;
    axiom_of(alloc, body, sides)
}

/// Annotations, with a `%` between each two.
fn sides(alloc: Global, notes: &str) -> Result<Vec<Side>, NoMemory>
    ensures { IfOk result (λ sides. IsTrue (list_all is_proper_side sides.items)) }
{
    let mut sides = Vec::new(alloc);
    if notes.is_empty() {
        return Ok(sides);
    }
    for note in notes.split('%') {
        let side = side(alloc, note)?;
        sides.push(side)?;
    }
    Ok(sides)
}

/// An annotation: the letter of its property, its value, and behind a `~` its label, where it has one.
#[tactic(auto, using(crate::proofs::Proper::side_proper))]
fn side(alloc: Global, note: &str) -> Result<Side, NoMemory>
    ensures { IfOk result (λ side. IsTrue (is_proper_side side)) }
{
    let (front, label) = note.split_once('~').unwrap_or((note, ""));
    let label = label_of(alloc, label)?;
    let value = value(alloc, front.get(1..).unwrap_or(""))?;
    let property = iri(alloc, sign_at(front.as_bytes(), 0))?;
    Ok(Side {
        property,
        value,
        label,
    })
}

/// A label that is not empty.
fn label_of(alloc: Global, label: &str) -> Result<Option<Bytes>, NoMemory> {
    if label.is_empty() {
        return Ok(None);
    }
    Ok(Some(Bytes::from_vec(bytes_of(alloc, label)?)))
}

/// A value: `"` and a text, `^`, the letter of a datatype and a text, or the letter of an IRI.
#[tactic(auto, using(crate::proofs::Proper::link_proper))]
fn value(alloc: Global, text: &str) -> Result<NoteValue, NoMemory>
    ensures { IfOk result (λ value. IsTrue (is_proper_value value)) }
{
    let signs = text.as_bytes();
    match sign_at(signs, 0) {
        b'"' => plain(alloc, text.get(1..).unwrap_or("")),
        b'^' => typed(alloc, sign_at(signs, 1), text.get(2..).unwrap_or("")),
        letter => Ok(NoteValue::Link(iri(alloc, letter)?)),
    }
}

/// A plain text.
#[tactic(auto, using(crate::proofs::Proper::text_proper))]
fn plain(alloc: Global, text: &str) -> Result<NoteValue, NoMemory>
    ensures { IfOk result (λ value. IsTrue (is_proper_value value)) }
{
    Ok(NoteValue::Text(Bytes::from_vec(bytes_of(alloc, text)?)))
}

/// A text of the datatype of a letter.
#[tactic(auto, using(crate::proofs::Proper::typed_proper))]
fn typed(alloc: Global, letter: u8, text: &str) -> Result<NoteValue, NoMemory>
    ensures { IfOk result (λ value. IsTrue (is_proper_value value)) }
{
    let text = Bytes::from_vec(bytes_of(alloc, text)?);
    let datatype = iri(alloc, letter)?;
    Ok(NoteValue::Typed(text, datatype))
}

/// What an axiom says: the word is the name of its kind.
fn body(alloc: Global, word: &str, parts: &str) -> Result<Body, NoMemory>
    ensures { IfOk result (λ said. IsTrue (is_proper_unordered said)) }
{
    let signs = parts.as_bytes();
    match word {
        "Sub" | "Equiv" | "Disjoint" => of_exprs(alloc, word, signs),
        "Domain" | "Range" | "ClassAssertion" => of_expr(alloc, word, signs),
        "Chain" | "RoleAssertion" => of_three(alloc, word, signs),
        "Declaration" => declared(alloc, signs),
        "Note" => noted(alloc, signs, parts.get(3..).unwrap_or("")),
        "OntologyNote" => noted_on_all(alloc, signs, parts.get(1..).unwrap_or("")),
        _ => of_roles(alloc, word, signs),
    }
}

/// What speaks of two expressions.
fn of_exprs(alloc: Global, word: &str, signs: &[u8]) -> Result<Body, NoMemory>
    ensures { IfOk result (λ said. IsTrue (is_proper_unordered said)) }
{
    let one = expr(alloc, sign_at(signs, 0))?;
    let other = expr(alloc, sign_at(signs, 1))?;
    Ok(said_of_exprs(word, one, other))
}

/// The same of these two.
#[tactic(auto, using(crate::proofs::Proper::proper_of_exprs))]
fn said_of_exprs(word: &str, one: ClassExpr, other: ClassExpr) -> Body
    requires one { IsProperExpr one }
    requires other { IsProperExpr other }
    ensures { IsTrue (is_proper_unordered result) }
{
    match word {
        "Sub" => Body::Sub(one, other),
        "Equiv" => Body::Equiv(one, other),
        _ => Body::Disjoint(one, other),
    }
}

/// What speaks of an IRI and an expression.
fn of_expr(alloc: Global, word: &str, signs: &[u8]) -> Result<Body, NoMemory>
    ensures { IfOk result (λ said. IsTrue (is_proper_unordered said)) }
{
    let expr = expr(alloc, sign_at(signs, 1))?;
    let iri = iri(alloc, sign_at(signs, 0))?;
    Ok(said_of_expr(word, iri, expr))
}

/// The same of these two.
#[tactic(auto, using(crate::proofs::Proper::proper_of_expr))]
fn said_of_expr(word: &str, iri: Iri, expr: ClassExpr) -> Body
    requires iri { IsTrue (is_clean_iri iri) }
    requires expr { IsProperExpr expr }
    ensures { IsTrue (is_proper_unordered result) }
{
    match word {
        "Domain" => Body::Domain(iri, expr),
        "Range" => Body::Range(iri, expr),
        _ => Body::ClassAssertion(expr, iri),
    }
}

/// What speaks of three IRIs.
#[tactic(auto, using(crate::proofs::Proper::proper_of_three))]
fn of_three(alloc: Global, word: &str, signs: &[u8]) -> Result<Body, NoMemory>
    ensures { IfOk result (λ said. IsTrue (is_proper_unordered said)) }
{
    let first = iri(alloc, sign_at(signs, 0))?;
    let second = iri(alloc, sign_at(signs, 1))?;
    let third = iri(alloc, sign_at(signs, 2))?;
    Ok(if word == "Chain" {
        Body::Chain(first, second, third)
    } else {
        Body::RoleAssertion(first, second, third)
    })
}

/// What speaks of one property or of two.
fn of_roles(alloc: Global, word: &str, signs: &[u8]) -> Result<Body, NoMemory>
    ensures { IfOk result (λ said. IsTrue (is_proper_unordered said)) }
{
    let one = iri(alloc, sign_at(signs, 0))?;
    if signs.len() < 2 {
        return Ok(said_of_role(word, one));
    }
    let other = iri(alloc, sign_at(signs, 1))?;
    Ok(said_of_roles(word, one, other))
}

/// The same of two.
#[tactic(auto, using(crate::proofs::Proper::proper_of_roles))]
fn said_of_roles(word: &str, one: Iri, other: Iri) -> Body
    requires one { IsTrue (is_clean_iri one) }
    requires other { IsTrue (is_clean_iri other) }
    ensures { IsTrue (is_proper_unordered result) }
{
    match word {
        "SubRole" => Body::SubRole(one, other),
        "EquivRoles" => Body::EquivRoles(one, other),
        "DisjointRoles" => Body::DisjointRoles(one, other),
        _ => Body::Inverse(one, other),
    }
}

/// The same of one.
#[tactic(auto, using(crate::proofs::Proper::proper_of_role))]
fn said_of_role(word: &str, role: Iri) -> Body
    requires { IsTrue (is_clean_iri role) }
    ensures { IsTrue (is_proper_unordered result) }
{
    match word {
        "Transitive" => Body::Transitive(role),
        "Reflexive" => Body::Reflexive(role),
        "Symmetric" => Body::Symmetric(role),
        "Asymmetric" => Body::Asymmetric(role),
        "Functional" => Body::Functional(role),
        _ => Body::InverseFunctional(role),
    }
}

/// An entity: the first letter of its kind, and its own.
fn name(alloc: Global, signs: &[u8]) -> Result<Name, NoMemory>
    ensures { IfOk result (λ name. IsTrue (is_clean_iri name.iri)) }
{
    let kind = match sign_at(signs, 0) {
        b'C' => Kind::Class,
        b'R' => Kind::Role,
        b'I' => Kind::Individual,
        _ => Kind::AnnotationProperty,
    };
    let iri = iri(alloc, sign_at(signs, 1))?;
    Ok(Name { kind, iri })
}

/// That an entity is there.
#[tactic(auto, using(crate::proofs::Proper::declared_proper))]
fn declared(alloc: Global, signs: &[u8]) -> Result<Body, NoMemory>
    ensures { IfOk result (λ said. IsTrue (is_proper_unordered said)) }
{
    Ok(Body::Declaration(name(alloc, signs)?))
}

/// A note: its subject, the letter of its property, and its value.
#[tactic(auto, using(crate::proofs::Proper::noted_proper))]
fn noted(alloc: Global, signs: &[u8], text: &str) -> Result<Body, NoMemory>
    ensures { IfOk result (λ said. IsTrue (is_proper_unordered said)) }
{
    let value = value(alloc, text)?;
    let subject = name(alloc, signs)?;
    let property = iri(alloc, sign_at(signs, 2))?;
    Ok(Body::Note(subject, property, value))
}

/// A note about the ontology: the letter of its property, and its value.
#[tactic(auto, using(crate::proofs::Proper::of_ontology_proper))]
fn noted_on_all(alloc: Global, signs: &[u8], text: &str) -> Result<Body, NoMemory>
    ensures { IfOk result (λ said. IsTrue (is_proper_unordered said)) }
{
    let value = value(alloc, text)?;
    let property = iri(alloc, sign_at(signs, 0))?;
    Ok(Body::OntologyNote(property, value))
}
