//! Axioms, as the OWL 2 Structural Specification has them, of those kinds that OBO files can say.
ghost use Rattle.std.specs.Prelude.{◌≡◌, IfOk};

use crate::{ClassExpr, Name, NoteValue, Side};
use rel_io::{Dup, Iri, Items, NoMemory};
use std::alloc::Global;

/// What an axiom says, without its annotations.
#[derive(PartialEq, Eq, Hash, Drop)]
pub enum Body {
    /// The first is a subclass of the second.
    Sub(ClassExpr, ClassExpr),
    /// Both are equivalent classes.
    Equiv(ClassExpr, ClassExpr),
    /// Both are disjoint classes.
    Disjoint(ClassExpr, ClassExpr),
    /// The first is a subproperty of the second.
    SubRole(Iri, Iri),
    /// The chain of the first and the second is a subproperty of the third.
    Chain(Iri, Iri, Iri),
    /// Both are equivalent properties.
    EquivRoles(Iri, Iri),
    /// Both are disjoint properties.
    DisjointRoles(Iri, Iri),
    /// Each is the inverse of the other.
    Inverse(Iri, Iri),
    /// The property is transitive.
    Transitive(Iri),
    /// The property is reflexive.
    Reflexive(Iri),
    /// The property is symmetric.
    Symmetric(Iri),
    /// The property is asymmetric.
    Asymmetric(Iri),
    /// The property is functional.
    Functional(Iri),
    /// The property is inverse functional.
    InverseFunctional(Iri),
    /// What has a filler by the property is in the class.
    Domain(Iri, ClassExpr),
    /// Each filler of the property is in the class.
    Range(Iri, ClassExpr),
    /// The individual is in the class.
    ClassAssertion(ClassExpr, Iri),
    /// The property leads from the first individual to the second.
    RoleAssertion(Iri, Iri, Iri),
    /// The entity is there.
    Declaration(Name),
    /// The subject has this value of the annotation property.
    Note(Name, Iri, NoteValue),
    /// The ontology has this value of the annotation property.
    OntologyNote(Iri, NoteValue),
}

/// An axiom: what it says, and its annotations. Two axioms are equal where both are.
#[derive(PartialEq, Eq, Hash, Drop)]
pub struct Axiom {
    /// What it says.
    pub body: Body,
    /// Its annotations.
    pub sides: Items<Side>,
}

impl Dup for Body {
    fn copy(&self, alloc: Global) -> Result<Body, NoMemory> {
        match self {
            Body::Sub(first, second) => of_two(alloc, first, second, Body::Sub),
            Body::Equiv(first, second) => of_two(alloc, first, second, Body::Equiv),
            Body::Disjoint(first, second) => of_two(alloc, first, second, Body::Disjoint),
            Body::SubRole(first, second) => of_two(alloc, first, second, Body::SubRole),
            Body::Chain(first, second, third) => of_three(alloc, first, second, third, Body::Chain),
            Body::EquivRoles(first, second) => of_two(alloc, first, second, Body::EquivRoles),
            Body::DisjointRoles(first, second) => of_two(alloc, first, second, Body::DisjointRoles),
            Body::Inverse(first, second) => of_two(alloc, first, second, Body::Inverse),
            Body::Transitive(role) => role.copy(alloc).map(Body::Transitive),
            Body::Reflexive(role) => role.copy(alloc).map(Body::Reflexive),
            Body::Symmetric(role) => role.copy(alloc).map(Body::Symmetric),
            Body::Asymmetric(role) => role.copy(alloc).map(Body::Asymmetric),
            Body::Functional(role) => role.copy(alloc).map(Body::Functional),
            Body::InverseFunctional(role) => role.copy(alloc).map(Body::InverseFunctional),
            Body::Domain(role, class) => of_two(alloc, role, class, Body::Domain),
            Body::Range(role, class) => of_two(alloc, role, class, Body::Range),
            Body::ClassAssertion(class, name) => of_two(alloc, class, name, Body::ClassAssertion),
            Body::RoleAssertion(role, from, to) => of_three(
                alloc,
                role,
                from,
                to,
                Body::RoleAssertion,
            ),
            Body::Declaration(name) => name.copy(alloc).map(Body::Declaration),
            Body::Note(subject, property, value) => of_three(
                alloc,
                subject,
                property,
                value,
                Body::Note,
            ),
            Body::OntologyNote(property, value) => of_two(
                alloc,
                property,
                value,
                Body::OntologyNote,
            ),
        }
    }
}

impl Dup for Axiom {
    fn copy(&self, alloc: Global) -> Result<Axiom, NoMemory> {
        let sides = self.sides.copy(alloc)?;
        let body = self.body.copy(alloc)?;
        Ok(Axiom { body, sides })
    }
}

/// What is made of copies of two values.
pub fn of_two<A: Dup + Drop, B: Dup, F: FnOnce(A, B) -> Body + Drop>(
    alloc: Global,
    first: &A,
    second: &B,
    make: F,
) -> Result<Body, NoMemory>
    requires { F.IsAlwaysCallable make }
    ensures { IfOk result (λ made. F.post make first.now second.now made) }
{
    let first = first.copy(alloc)?;
    let second = second.copy(alloc)?;
    Ok(make(first, second))
}

/// What is made of copies of three values.
fn of_three<A: Dup + Drop, B: Dup + Drop, C: Dup, F: FnOnce(A, B, C) -> Body + Drop>(
    alloc: Global,
    first: &A,
    second: &B,
    third: &C,
    make: F,
) -> Result<Body, NoMemory>
    requires { F.IsAlwaysCallable make }
    ensures { IfOk result (λ made. F.post make first.now second.now third.now made) }
{
    let first = first.copy(alloc)?;
    let second = second.copy(alloc)?;
    let third = third.copy(alloc)?;
    Ok(make(first, second, third))
}
