//! The names in an axiom, added to a signature.
ghost use Rattle.std.specs.Prelude.{◌≡◌, OnErr, OnOk};
ghost use Rattle.owl_axioms.specs.Names.{body_names, is_signed, names_in, subject_names};
ghost use Rattle.owl_axioms.specs.Signature.{SigState, add_name, added};
ghost use Rattle.owl_axioms.specs.declared.name.Kind.TheVariants as kind;
ghost use Rattle.owl_axioms.specs.inner.Growth.{IsMore, names_list};

use crate::{Axiom, Body, ClassExpr, Kind, Name, Sig};
use rel_io::{Iri, NoMemory};

/// The IRIs of the two classes that no signature has.
const OWL_THING: &[u8] = b"http://www.w3.org/2002/07/owl#Thing";

const OWL_NOTHING: &[u8] = b"http://www.w3.org/2002/07/owl#Nothing";

/// Adds the names in an axiom: those in its expressions, its roles and individuals, and the subject that it
/// declares or annotates, but for annotation properties, owl:Thing and owl:Nothing. Where no memory is left, the
/// signature is as it was.
pub fn sig_of(from: &Axiom, into: &mut Sig) -> Result<(), NoMemory>
    ensures names { OnOk result (into.new ≡ added into.old (body_names from.now.body)) }
    ensures unchanged { OnErr result (into.new ≡ into.old) }
{
    let sizes = into.sizes();
    match add_body(into, &from.body) {
        Ok(()) => Ok(()),
        Err(fault) => {
            into.cut(sizes);
            Err(fault)
        }
    }
}

/// Adds the names in what an axiom says.
#[tactic(auto, using(crate::proofs::Adding::added_append), unfolding(crate::specs::Names::body_names, crate::specs::Signature::added))]
fn add_body(sig: &mut Sig, body: &Body) -> Result<(), NoMemory>
    ensures grows { (t : SigState) → IsMore t sig.old → IsMore t sig.new }
    ensures names { OnOk result (sig.new ≡ added sig.old (body_names body.now)) }
{
    match body {
        Body::Sub(first, second) => add_two(sig, first, second),
        Body::Equiv(first, second) => add_two(sig, first, second),
        Body::Disjoint(first, second) => add_two(sig, first, second),
        Body::SubRole(first, second) => add_roles(sig, first, second),
        Body::Chain(first, second, third) => {
            add_one(sig, Kind::Role, first)?;
            add_roles(sig, second, third)
        }
        Body::EquivRoles(first, second) => add_roles(sig, first, second),
        Body::DisjointRoles(first, second) => add_roles(sig, first, second),
        Body::Inverse(first, second) => add_roles(sig, first, second),
        Body::Transitive(role) => add_one(sig, Kind::Role, role),
        Body::Reflexive(role) => add_one(sig, Kind::Role, role),
        Body::Symmetric(role) => add_one(sig, Kind::Role, role),
        Body::Asymmetric(role) => add_one(sig, Kind::Role, role),
        Body::Functional(role) => add_one(sig, Kind::Role, role),
        Body::InverseFunctional(role) => add_one(sig, Kind::Role, role),
        Body::Domain(role, class) => add_filler(sig, role, class),
        Body::Range(role, class) => add_filler(sig, role, class),
        Body::ClassAssertion(class, name) => add_member(sig, class, name),
        Body::RoleAssertion(role, from, to) => add_pair(sig, role, from, to),
        Body::Declaration(name) => add_subject(sig, name),
        Body::Note(subject, _, _) => add_subject(sig, subject),
        Body::OntologyNote(_, _) => Ok(()),
    }
}

/// Adds the names in an expression.
#[cycle(naming)]
fn add_expr(sig: &mut Sig, expr: &ClassExpr) -> Result<(), NoMemory>
    ensures grows { (t : SigState) → IsMore t sig.old → IsMore t sig.new }
    ensures names { OnOk result (sig.new ≡ added sig.old (names_in expr.now)) }
{
    match expr {
        ClassExpr::Thing => Ok(()),
        ClassExpr::Nothing => Ok(()),
        ClassExpr::Class(iri) => {
            sig.put(Kind::Class, iri)?;
            Ok(())
        }
        ClassExpr::And(parts) => add_exprs(sig, parts.as_slice()),
        ClassExpr::Or(parts) => add_exprs(sig, parts.as_slice()),
        ClassExpr::Not(part) => add_expr(sig, part.get()),
        ClassExpr::Some(role, part) => add_filler(sig, role, part.get()),
        ClassExpr::All(role, part) => add_filler(sig, role, part.get()),
        ClassExpr::Min(_, role, part) => add_filler(sig, role, part.get()),
        ClassExpr::Max(_, role, part) => add_filler(sig, role, part.get()),
        ClassExpr::Exact(_, role, part) => add_filler(sig, role, part.get()),
    }
}

/// Adds a role, and the names in the expression beside it.
#[cycle(naming)]
fn add_filler(sig: &mut Sig, role: &Iri, part: &ClassExpr) -> Result<(), NoMemory>
    ensures grows { (t : SigState) → IsMore t sig.old → IsMore t sig.new }
    ensures names { OnOk result (sig.new ≡ added (add_name sig.old kind.Role role.now) (names_in part.now)) }
{
    sig.put(Kind::Role, role)?;
    add_expr(sig, part)
}

/// Adds the names in each expression.
#[cycle(naming)]
fn add_exprs(sig: &mut Sig, exprs: &[ClassExpr]) -> Result<(), NoMemory>
    ensures grows { (t : SigState) → IsMore t sig.old → IsMore t sig.new }
    ensures names { OnOk result (sig.new ≡ added sig.old (names_list exprs.now)) }
{
    for expr in exprs {
        add_expr(sig, expr)?;
    }
    Ok(())
}

/// Adds the names in two expressions.
fn add_two(sig: &mut Sig, first: &ClassExpr, second: &ClassExpr) -> Result<(), NoMemory>
    ensures grows { (t : SigState) → IsMore t sig.old → IsMore t sig.new }
    ensures names { OnOk result (sig.new ≡ added (added sig.old (names_in first.now)) (names_in second.now)) }
{
    add_expr(sig, first)?;
    add_expr(sig, second)
}

/// Adds a name.
fn add_one(sig: &mut Sig, kind: Kind, iri: &Iri) -> Result<(), NoMemory>
    ensures grows { (t : SigState) → IsMore t sig.old → IsMore t sig.new }
    ensures names { OnOk result (sig.new ≡ add_name sig.old kind iri.now) }
{
    sig.put(kind, iri)?;
    Ok(())
}

/// Adds two roles.
fn add_roles(sig: &mut Sig, first: &Iri, second: &Iri) -> Result<(), NoMemory>
    ensures grows { (t : SigState) → IsMore t sig.old → IsMore t sig.new }
    ensures names { OnOk result (sig.new ≡ add_name (add_name sig.old kind.Role first.now) kind.Role second.now) }
{
    sig.put(Kind::Role, first)?;
    sig.put(Kind::Role, second)?;
    Ok(())
}

/// Adds an individual, and the names in the expression that it is a member of.
fn add_member(sig: &mut Sig, class: &ClassExpr, name: &Iri) -> Result<(), NoMemory>
    ensures grows { (t : SigState) → IsMore t sig.old → IsMore t sig.new }
    ensures names { OnOk result (sig.new ≡ added (add_name sig.old kind.Individual name.now) (names_in class.now)) }
{
    sig.put(Kind::Individual, name)?;
    add_expr(sig, class)
}

/// Adds a role and two individuals.
fn add_pair(sig: &mut Sig, role: &Iri, from: &Iri, to: &Iri) -> Result<(), NoMemory>
    ensures grows { (t : SigState) → IsMore t sig.old → IsMore t sig.new }
    ensures names { OnOk result (sig.new ≡ add_name (add_name (add_name sig.old kind.Role role.now) kind.Individual from.now) kind.Individual to.now) }
{
    sig.put(Kind::Role, role)?;
    sig.put(Kind::Individual, from)?;
    sig.put(Kind::Individual, to)?;
    Ok(())
}

/// Adds a name that is declared or annotated, where a signature has it.
fn add_subject(sig: &mut Sig, name: &Name) -> Result<(), NoMemory>
    ensures grows { (t : SigState) → IsMore t sig.old → IsMore t sig.new }
    ensures names { OnOk result (sig.new ≡ added sig.old (subject_names name.now)) }
{
    if is_signed(name) {
        add_one(sig, name.kind, &name.iri)
    } else {
        Ok(())
    }
}

/// Whether a name may be in a signature: a class other than owl:Thing and owl:Nothing, a role or an individual.
#[tactic(auto, unfolding(crate::specs::Names::is_signed, crate::specs::Vocabulary::owl_thing, crate::specs::Vocabulary::owl_nothing))]
pub fn is_signed(name: &Name) -> bool
    ensures { result ≡ is_signed name.now.kind name.now.iri }
{
    match name.kind {
        Kind::Class => {
            let iri = name.iri.as_slice();
            !(iri == OWL_THING || iri == OWL_NOTHING)
        }
        Kind::Role => true,
        Kind::Individual => true,
        Kind::AnnotationProperty => false,
    }
}
