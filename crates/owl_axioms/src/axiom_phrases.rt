//! The functional-style text of axioms: a word, and in brackets the annotations and what the axiom speaks of.
ghost use Rattle.std.specs.Prelude.{◌≡◌, ◌∷◌, ◌++◌, [], IfOk, OnErr, OnOk, codes, map};
ghost use Rattle.owl_axioms.specs.Text as spec;
ghost use Rattle.owl_axioms.specs.inner.Joined.{end_one, end_three, end_two, opening, spaced};

use crate::text::{end_value, push_byte, push_expr, push_iri, push_open, push_side};
use crate::{Axiom, Body, ClassExpr, Kind, Name, NoteValue, Side};
use rel_io::{Iri, NoMemory};
use std::alloc::Global;

/// Appends the functional-style text of an axiom, without a line's end. It is made whole before, so that `out` stays as it
/// was where no memory is left. It takes time in proportion to the text.
pub fn axiom_text(alloc: Global, axiom: &Axiom, out: &mut Vec<u8>) -> Result<(), NoMemory>
    ensures text { OnOk result (out.new.items ≡ out.old.items ++ spec.axiom_text «axiom».now) }
    ensures unchanged { OnErr result (out.new.items ≡ out.old.items) }
{
    let text = text_of_axiom(alloc, axiom)?;
    out.extend_from_slice(text.as_slice())?;
    Ok(())
}

/// The text of an axiom.
#[tactic(auto, unfolding(crate::specs::Text::axiom_text))]
fn text_of_axiom(alloc: Global, axiom: &Axiom) -> Result<Vec<u8>, NoMemory>
    ensures { IfOk result (λ text. text.items ≡ spec.axiom_text «axiom».now) }
{
    let mut text = Vec::new(alloc);
    push_body(&mut text, axiom.sides.as_slice(), &axiom.body)?;
    Ok(text)
}

/// Appends what an axiom says, with its annotations.
#[tactic(auto, unfolding(crate::specs::Text::body_text))]
fn push_body(out: &mut Vec<u8>, sides: &[Side], body: &Body) -> Result<(), NoMemory>
    ensures { OnOk result (out.new.items ≡ out.old.items ++ spec.body_text (map spec.side_text sides.now) body.now) }
{
    match body {
        Body::Sub(one, other) => of_exprs(out, b"SubClassOf", sides, one, other),
        Body::Equiv(one, other) => of_exprs(out, b"EquivalentClasses", sides, one, other),
        Body::Disjoint(one, other) => of_exprs(out, b"DisjointClasses", sides, one, other),
        Body::SubRole(one, other) => of_iris(out, b"SubObjectPropertyOf", sides, one, other),
        Body::Chain(first, second, whole) => of_chain(out, sides, first, second, whole),
        Body::EquivRoles(one, other) => of_iris(
            out,
            b"EquivalentObjectProperties",
            sides,
            one,
            other,
        ),
        Body::DisjointRoles(one, other) => of_iris(
            out,
            b"DisjointObjectProperties",
            sides,
            one,
            other,
        ),
        Body::Inverse(one, other) => of_iris(out, b"InverseObjectProperties", sides, one, other),
        Body::Transitive(role) => of_iri(out, b"TransitiveObjectProperty", sides, role),
        Body::Reflexive(role) => of_iri(out, b"ReflexiveObjectProperty", sides, role),
        Body::Symmetric(role) => of_iri(out, b"SymmetricObjectProperty", sides, role),
        Body::Asymmetric(role) => of_iri(out, b"AsymmetricObjectProperty", sides, role),
        Body::Functional(role) => of_iri(out, b"FunctionalObjectProperty", sides, role),
        Body::InverseFunctional(role) => of_iri(
            out,
            b"InverseFunctionalObjectProperty",
            sides,
            role,
        ),
        Body::Domain(role, class) => of_role_and_class(
            out,
            b"ObjectPropertyDomain",
            sides,
            role,
            class,
        ),
        Body::Range(role, class) => of_role_and_class(
            out,
            b"ObjectPropertyRange",
            sides,
            role,
            class,
        ),
        Body::ClassAssertion(class, name) => of_member(out, sides, class, name),
        Body::RoleAssertion(role, from, to) => of_related(out, sides, role, from, to),
        Body::Declaration(name) => of_name(out, sides, name),
        Body::Note(subject, property, value) => of_note(out, sides, property, &subject.iri, value),
        Body::OntologyNote(property, value) => of_ontology(out, sides, property, value),
    }
}

/// Appends what speaks of two expressions.

fn of_exprs(
    out: &mut Vec<u8>,
    word: &[u8],
    sides: &[Side],
    one: &ClassExpr,
    other: &ClassExpr,
) -> Result<(), NoMemory>
    ensures { OnOk result (out.new.items ≡ out.old.items ++ spec.phrase word.now
        (map spec.side_text sides.now ++ spec.expr_text one.now ∷ spec.expr_text other.now ∷ [])) }
{
    push_opening(out, word, sides)?;
    end_exprs(out, one, other)
}

/// Appends two expressions as the last two parts.
#[tactic(auto, unfolding(crate::specs::inner::Joined::end_one, crate::specs::inner::Joined::end_two))]
fn end_exprs(out: &mut Vec<u8>, one: &ClassExpr, other: &ClassExpr) -> Result<(), NoMemory>
    ensures { OnOk result (out.new.items ≡ out.old.items
        ++ end_two (spec.expr_text one.now) (spec.expr_text other.now)) }
{
    push_expr(out, one)?;
    push_byte(out, b' ')?;
    push_expr(out, other)?;
    push_byte(out, b')')
}

/// Appends what speaks of one property.

fn of_iri(out: &mut Vec<u8>, word: &[u8], sides: &[Side], one: &Iri) -> Result<(), NoMemory>
    ensures { OnOk result (out.new.items ≡ out.old.items ++ spec.phrase word.now
        (map spec.side_text sides.now ++ spec.iri_text one.now ∷ [])) }
{
    push_opening(out, word, sides)?;
    end_iri(out, one)
}

/// Appends an IRI as the last part.
#[tactic(auto, unfolding(crate::specs::inner::Joined::end_one))]
fn end_iri(out: &mut Vec<u8>, one: &Iri) -> Result<(), NoMemory>
    ensures { OnOk result (out.new.items ≡ out.old.items ++ end_one (spec.iri_text one.now)) }
{
    push_iri(out, one.as_slice())?;
    push_byte(out, b')')
}

/// Appends what speaks of two properties.

fn of_iris(
    out: &mut Vec<u8>,
    word: &[u8],
    sides: &[Side],
    one: &Iri,
    other: &Iri,
) -> Result<(), NoMemory>
    ensures { OnOk result (out.new.items ≡ out.old.items ++ spec.phrase word.now
        (map spec.side_text sides.now ++ spec.iri_text one.now ∷ spec.iri_text other.now ∷ [])) }
{
    push_opening(out, word, sides)?;
    end_iris(out, one, other)
}

/// Appends two IRIs as the last two parts.
#[tactic(auto, unfolding(crate::specs::inner::Joined::end_two))]
fn end_iris(out: &mut Vec<u8>, one: &Iri, other: &Iri) -> Result<(), NoMemory>
    ensures { OnOk result (out.new.items ≡ out.old.items
        ++ end_two (spec.iri_text one.now) (spec.iri_text other.now)) }
{
    push_iri(out, one.as_slice())?;
    push_byte(out, b' ')?;
    end_iri(out, other)
}

/// Appends what speaks of a chain of two properties.

fn of_chain(
    out: &mut Vec<u8>,
    sides: &[Side],
    first: &Iri,
    second: &Iri,
    whole: &Iri,
) -> Result<(), NoMemory>
    ensures { OnOk result (out.new.items ≡ out.old.items ++ spec.phrase (codes "SubObjectPropertyOf")
        (map spec.side_text sides.now ++ spec.phrase (codes "ObjectPropertyChain") (spec.iri_text first.now ∷ spec.iri_text second.now ∷ [])
        ∷ spec.iri_text whole.now ∷ [])) }
{
    push_opening(out, b"SubObjectPropertyOf", sides)?;
    end_chain(out, first, second, whole)
}

/// Appends a chain of two properties and an IRI as the last two parts.
#[tactic(auto, unfolding(crate::specs::inner::Joined::end_two))]
fn end_chain(out: &mut Vec<u8>, first: &Iri, second: &Iri, whole: &Iri) -> Result<(), NoMemory>
    ensures { OnOk result (out.new.items ≡ out.old.items
        ++ end_two (spec.phrase (codes "ObjectPropertyChain") (spec.iri_text first.now ∷ spec.iri_text second.now ∷ []))
        (spec.iri_text whole.now)) }
{
    push_chain(out, first, second)?;
    push_byte(out, b' ')?;
    end_iri(out, whole)
}

/// Appends a chain of two properties.
#[tactic(auto, unfolding(crate::specs::Text::phrase, crate::specs::inner::Joined::end_one, crate::specs::inner::Joined::end_two))]
fn push_chain(out: &mut Vec<u8>, first: &Iri, second: &Iri) -> Result<(), NoMemory>
    ensures { OnOk result (out.new.items ≡ out.old.items
        ++ spec.phrase (codes "ObjectPropertyChain") (spec.iri_text first.now ∷ spec.iri_text second.now ∷ [])) }
{
    push_open(out, b"ObjectPropertyChain")?;
    end_iris(out, first, second)
}

/// Appends what speaks of a property and a class.

fn of_role_and_class(
    out: &mut Vec<u8>,
    word: &[u8],
    sides: &[Side],
    role: &Iri,
    class: &ClassExpr,
) -> Result<(), NoMemory>
    ensures { OnOk result (out.new.items ≡ out.old.items ++ spec.phrase word.now
        (map spec.side_text sides.now ++ spec.iri_text role.now ∷ spec.expr_text class.now ∷ [])) }
{
    push_opening(out, word, sides)?;
    end_expr(out, role, class)
}

/// Appends an IRI and an expression as the last two parts.
#[tactic(auto, unfolding(crate::specs::inner::Joined::end_one, crate::specs::inner::Joined::end_two))]
fn end_expr(out: &mut Vec<u8>, role: &Iri, class: &ClassExpr) -> Result<(), NoMemory>
    ensures { OnOk result (out.new.items ≡ out.old.items
        ++ end_two (spec.iri_text role.now) (spec.expr_text class.now)) }
{
    push_iri(out, role.as_slice())?;
    push_byte(out, b' ')?;
    push_expr(out, class)?;
    push_byte(out, b')')
}

/// Appends what says that an individual is in a class.

fn of_member(
    out: &mut Vec<u8>,
    sides: &[Side],
    class: &ClassExpr,
    name: &Iri,
) -> Result<(), NoMemory>
    ensures { OnOk result (out.new.items ≡ out.old.items ++ spec.phrase (codes "ClassAssertion")
        (map spec.side_text sides.now ++ spec.expr_text class.now ∷ spec.iri_text name.now ∷ [])) }
{
    push_opening(out, b"ClassAssertion", sides)?;
    end_member(out, class, name)
}

/// Appends an expression and an IRI as the last two parts.
#[tactic(auto, unfolding(crate::specs::inner::Joined::end_two))]
fn end_member(out: &mut Vec<u8>, class: &ClassExpr, name: &Iri) -> Result<(), NoMemory>
    ensures { OnOk result (out.new.items ≡ out.old.items
        ++ end_two (spec.expr_text class.now) (spec.iri_text name.now)) }
{
    push_expr(out, class)?;
    push_byte(out, b' ')?;
    end_iri(out, name)
}

/// Appends what says that a property leads from one individual to another.

fn of_related(
    out: &mut Vec<u8>,
    sides: &[Side],
    role: &Iri,
    from: &Iri,
    to: &Iri,
) -> Result<(), NoMemory>
    ensures { OnOk result (out.new.items ≡ out.old.items ++ spec.phrase (codes "ObjectPropertyAssertion")
        (map spec.side_text sides.now ++ spec.iri_text role.now ∷ spec.iri_text from.now ∷ spec.iri_text to.now ∷ [])) }
{
    push_opening(out, b"ObjectPropertyAssertion", sides)?;
    end_related(out, role, from, to)
}

/// Appends three IRIs as the last three parts.
#[tactic(auto, unfolding(crate::specs::inner::Joined::end_three))]
fn end_related(out: &mut Vec<u8>, role: &Iri, from: &Iri, to: &Iri) -> Result<(), NoMemory>
    ensures { OnOk result (out.new.items ≡ out.old.items
        ++ end_three (spec.iri_text role.now) (spec.iri_text from.now) (spec.iri_text to.now)) }
{
    push_iri(out, role.as_slice())?;
    push_byte(out, b' ')?;
    end_iris(out, from, to)
}

/// Appends what says that an entity is there.

fn of_name(out: &mut Vec<u8>, sides: &[Side], name: &Name) -> Result<(), NoMemory>
    ensures { OnOk result (out.new.items ≡ out.old.items ++ spec.phrase (codes "Declaration")
        (map spec.side_text sides.now ++ spec.name_text name.now ∷ [])) }
{
    push_opening(out, b"Declaration", sides)?;
    end_name(out, name)
}

/// Appends an entity as the last part.
#[tactic(auto, unfolding(crate::specs::inner::Joined::end_one))]
fn end_name(out: &mut Vec<u8>, name: &Name) -> Result<(), NoMemory>
    ensures { OnOk result (out.new.items ≡ out.old.items ++ end_one (spec.name_text name.now)) }
{
    push_name(out, name)?;
    push_byte(out, b')')
}

/// Appends an entity.
#[tactic(auto, unfolding(crate::specs::Text::name_text))]
fn push_name(out: &mut Vec<u8>, name: &Name) -> Result<(), NoMemory>
    ensures { OnOk result (out.new.items ≡ out.old.items ++ spec.name_text name.now) }
{
    match name.kind {
        Kind::Class => push_entity(out, b"Class", &name.iri),
        Kind::Role => push_entity(out, b"ObjectProperty", &name.iri),
        Kind::Individual => push_entity(out, b"NamedIndividual", &name.iri),
        Kind::AnnotationProperty => push_entity(out, b"AnnotationProperty", &name.iri),
    }
}

/// Appends a word and an IRI.
#[tactic(auto, unfolding(crate::specs::Text::phrase, crate::specs::inner::Joined::end_one))]
fn push_entity(out: &mut Vec<u8>, word: &[u8], iri: &Iri) -> Result<(), NoMemory>
    ensures { OnOk result (out.new.items ≡ out.old.items ++ spec.phrase word.now (spec.iri_text iri.now ∷ [])) }
{
    push_open(out, word)?;
    end_iri(out, iri)
}

/// Appends an annotation of an entity.

fn of_note(
    out: &mut Vec<u8>,
    sides: &[Side],
    property: &Iri,
    subject: &Iri,
    value: &NoteValue,
) -> Result<(), NoMemory>
    ensures { OnOk result (out.new.items ≡ out.old.items ++ spec.phrase (codes "AnnotationAssertion")
        (map spec.side_text sides.now ++ spec.iri_text property.now ∷ spec.iri_text subject.now ∷ spec.value_text value.now ∷ [])) }
{
    push_opening(out, b"AnnotationAssertion", sides)?;
    end_note(out, property, subject, value)
}

/// Appends two IRIs and a value as the last three parts.
#[tactic(auto, unfolding(crate::specs::inner::Joined::end_three))]
fn end_note(
    out: &mut Vec<u8>,
    property: &Iri,
    subject: &Iri,
    value: &NoteValue,
) -> Result<(), NoMemory>
    ensures { OnOk result (out.new.items ≡ out.old.items
        ++ end_three (spec.iri_text property.now) (spec.iri_text subject.now) (spec.value_text value.now)) }
{
    push_iri(out, property.as_slice())?;
    push_byte(out, b' ')?;
    end_value(out, subject, value)
}

/// Appends an annotation of the ontology.

fn of_ontology(
    out: &mut Vec<u8>,
    sides: &[Side],
    property: &Iri,
    value: &NoteValue,
) -> Result<(), NoMemory>
    ensures { OnOk result (out.new.items ≡ out.old.items ++ spec.phrase (codes "Annotation")
        (map spec.side_text sides.now ++ spec.iri_text property.now ∷ spec.value_text value.now ∷ [])) }
{
    push_opening(out, b"Annotation", sides)?;
    end_value(out, property, value)
}

/// Appends a word, its bracket and the annotations, with a space behind each.
#[tactic(auto, unfolding(crate::specs::inner::Joined::opening))]
fn push_opening(out: &mut Vec<u8>, word: &[u8], sides: &[Side]) -> Result<(), NoMemory>
    ensures { OnOk result (out.new.items ≡ out.old.items ++ opening word.now (map spec.side_text sides.now)) }
{
    push_open(out, word)?;
    push_sides(out, sides)
}

/// Appends annotations with a space behind each.
fn push_sides(out: &mut Vec<u8>, sides: &[Side]) -> Result<(), NoMemory>
    ensures { OnOk result (out.new.items ≡ out.old.items ++ spaced (map spec.side_text sides.now)) }
{
    for side in sides {
        push_side(out, side)?;
        push_byte(out, b' ')?;
    }
    Ok(())
}
