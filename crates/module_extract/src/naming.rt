//! The names in an axiom, as a list.
ghost use Rattle.std.specs.Prelude.{◌≡◌, ◌++◌, [], ◌∷◌, IfOk, OnOk};
ghost use Rattle.module_extract.specs.inner.Naming.{names_list, pushed};
ghost use Rattle.owl_axioms.specs.Names.{body_names, name_of, names_in, subject_names};
ghost use Rattle.owl_axioms.specs.declared.name.Kind.TheVariants as kind;

use owl_axioms::{Body, ClassExpr, Kind, Name, is_signed};
use rel_io::{Dup, Iri, NoMemory};
use std::alloc::Global;

/// The names in what an axiom says.
pub(crate) fn names_in_body(alloc: Global, body: &Body) -> Result<Vec<Name>, NoMemory>
    ensures { IfOk result (λ names. names.items ≡ body_names body.now) }
{
    let mut names = Vec::new(alloc);
    push_body(alloc, &mut names, body)?;
    Ok(names)
}

/// Puts the names in what an axiom says behind others.
#[tactic(auto, using(crate::proofs::Pushed::pushed_append), unfolding(owl_axioms::specs::Names::body_names, crate::specs::inner::Naming::pushed))]
fn push_body(alloc: Global, names: &mut Vec<Name>, body: &Body) -> Result<(), NoMemory>
    ensures { OnOk result (names.new.items ≡ pushed names.old.items (body_names body.now)) }
{
    match body {
        Body::Sub(first, second) => push_two(alloc, names, first, second),
        Body::Equiv(first, second) => push_two(alloc, names, first, second),
        Body::Disjoint(first, second) => push_two(alloc, names, first, second),
        Body::SubRole(first, second) => push_roles(alloc, names, first, second),
        Body::Chain(first, second, third) => {
            push_one(alloc, names, Kind::Role, first)?;
            push_roles(alloc, names, second, third)
        }
        Body::EquivRoles(first, second) => push_roles(alloc, names, first, second),
        Body::DisjointRoles(first, second) => push_roles(alloc, names, first, second),
        Body::Inverse(first, second) => push_roles(alloc, names, first, second),
        Body::Transitive(role) => push_one(alloc, names, Kind::Role, role),
        Body::Reflexive(role) => push_one(alloc, names, Kind::Role, role),
        Body::Symmetric(role) => push_one(alloc, names, Kind::Role, role),
        Body::Asymmetric(role) => push_one(alloc, names, Kind::Role, role),
        Body::Functional(role) => push_one(alloc, names, Kind::Role, role),
        Body::InverseFunctional(role) => push_one(alloc, names, Kind::Role, role),
        Body::Domain(role, class) => push_filler(alloc, names, role, class),
        Body::Range(role, class) => push_filler(alloc, names, role, class),
        Body::ClassAssertion(class, name) => push_member(alloc, names, class, name),
        Body::RoleAssertion(role, from, to) => push_pair(alloc, names, role, from, to),
        Body::Declaration(name) => push_subject(alloc, names, name),
        Body::Note(subject, _, _) => push_subject(alloc, names, subject),
        Body::OntologyNote(_, _) => Ok(()),
    }
}

/// Puts a name behind others.
fn push_one(alloc: Global, names: &mut Vec<Name>, kind: Kind, iri: &Iri) -> Result<(), NoMemory>
    ensures { OnOk result (names.new.items ≡ names.old.items ++ name_of kind iri.now ∷ []) }
{
    let iri = iri.copy(alloc)?;
    names.push(Name { kind, iri })?;
    Ok(())
}

/// Puts the names in an expression behind others.
#[cycle(naming)]
fn push_expr(alloc: Global, names: &mut Vec<Name>, expr: &ClassExpr) -> Result<(), NoMemory>
    ensures { OnOk result (names.new.items ≡ pushed names.old.items (names_in expr.now)) }
{
    match expr {
        ClassExpr::Thing => Ok(()),
        ClassExpr::Nothing => Ok(()),
        ClassExpr::Class(iri) => {
            push_one(alloc, names, Kind::Class, iri)?;
            Ok(())
        }
        ClassExpr::And(parts) => push_exprs(alloc, names, parts.as_slice()),
        ClassExpr::Or(parts) => push_exprs(alloc, names, parts.as_slice()),
        ClassExpr::Not(part) => push_expr(alloc, names, part.get()),
        ClassExpr::Some(role, part) => push_filler(alloc, names, role, part.get()),
        ClassExpr::All(role, part) => push_filler(alloc, names, role, part.get()),
        ClassExpr::Min(_, role, part) => push_filler(alloc, names, role, part.get()),
        ClassExpr::Max(_, role, part) => push_filler(alloc, names, role, part.get()),
        ClassExpr::Exact(_, role, part) => push_filler(alloc, names, role, part.get()),
    }
}

/// Puts a role behind others, and the names in the expression beside it.
#[cycle(naming)]
fn push_filler(
    alloc: Global,
    names: &mut Vec<Name>,
    role: &Iri,
    part: &ClassExpr,
) -> Result<(), NoMemory>
    ensures { OnOk result (names.new.items ≡ pushed (names.old.items ++ name_of kind.Role role.now ∷ []) (names_in part.now)) }
{
    push_one(alloc, names, Kind::Role, role)?;
    push_expr(alloc, names, part)
}

/// Puts the names in each expression behind others.
#[cycle(naming)]
fn push_exprs(alloc: Global, names: &mut Vec<Name>, exprs: &[ClassExpr]) -> Result<(), NoMemory>
    ensures { OnOk result (names.new.items ≡ pushed names.old.items (names_list exprs.now)) }
{
    for expr in exprs {
        push_expr(alloc, names, expr)?;
    }
    Ok(())
}

/// Puts the names in two expressions behind others.
fn push_two(
    alloc: Global,
    names: &mut Vec<Name>,
    first: &ClassExpr,
    second: &ClassExpr,
) -> Result<(), NoMemory>
    ensures { OnOk result (names.new.items ≡ pushed (pushed names.old.items (names_in first.now)) (names_in second.now)) }
{
    push_expr(alloc, names, first)?;
    push_expr(alloc, names, second)
}

/// Puts two roles behind others.
fn push_roles(
    alloc: Global,
    names: &mut Vec<Name>,
    first: &Iri,
    second: &Iri,
) -> Result<(), NoMemory>
    ensures { OnOk result (names.new.items ≡ (names.old.items ++ name_of kind.Role first.now ∷ []) ++ name_of kind.Role second.now ∷ []) }
{
    push_one(alloc, names, Kind::Role, first)?;
    push_one(alloc, names, Kind::Role, second)
}

/// Puts an individual behind others, and the names in the expression that it is a member of.
fn push_member(
    alloc: Global,
    names: &mut Vec<Name>,
    class: &ClassExpr,
    name: &Iri,
) -> Result<(), NoMemory>
    ensures { OnOk result (names.new.items ≡ pushed (names.old.items ++ name_of kind.Individual name.now ∷ []) (names_in class.now)) }
{
    push_one(alloc, names, Kind::Individual, name)?;
    push_expr(alloc, names, class)
}

/// Puts a role and two individuals behind others.
fn push_pair(
    alloc: Global,
    names: &mut Vec<Name>,
    role: &Iri,
    from: &Iri,
    to: &Iri,
) -> Result<(), NoMemory>
    ensures { OnOk result (names.new.items ≡ ((names.old.items ++ name_of kind.Role role.now ∷ []) ++ name_of kind.Individual from.now ∷ []) ++ name_of kind.Individual to.now ∷ []) }
{
    push_one(alloc, names, Kind::Role, role)?;
    push_one(alloc, names, Kind::Individual, from)?;
    push_one(alloc, names, Kind::Individual, to)
}

/// Puts a name that is declared or annotated behind others, where a signature has it.
fn push_subject(alloc: Global, names: &mut Vec<Name>, name: &Name) -> Result<(), NoMemory>
    ensures { OnOk result (names.new.items ≡ pushed names.old.items (subject_names name.now)) }
{
    if is_signed(name) {
        push_one(alloc, names, name.kind, &name.iri)
    } else {
        Ok(())
    }
}
