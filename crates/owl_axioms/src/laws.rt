//! What the definitions of this crate amount to. Each law is the contract of a function that does nothing.
ghost use Rattle.owl_axioms.specs.Laws.{ClassHasIri, EqualsAreTheSame, IriLeadsBack, TextTellsExpr, TextTellsSide};

use crate::{Axiom, ClassExpr, Side};
use rel_io::Iri;

/// `==` answers true of an axiom and itself, and of no other two: it looks at the body and at all annotations.
pub fn equality_is_sameness(one: &Axiom, other: &Axiom)
    ensures { EqualsAreTheSame one.now other.now }
{}

/// Different proper expressions have different texts.
pub fn text_tells_expr(one: &ClassExpr, other: &ClassExpr)
    ensures { TextTellsExpr one.now other.now }
{}

/// Different proper annotations have different texts.
pub fn text_tells_side(one: &Side, other: &Side)
    ensures { TextTellsSide one.now other.now }
{}

/// The class with an IRI has that IRI and its text.
pub fn class_has_iri(iri: &Iri)
    ensures { ClassHasIri iri.now }
{}

/// A class is the class with its IRI.
pub fn iri_leads_back(expr: &ClassExpr)
    ensures { IriLeadsBack expr.now }
{}
