//! The rules are sound: what they derive is true.
ghost use Rattle.el_rules.specs.Laws.{DerivedIsTrue, DerivedOccurs, ElBodiesSayTheSame};

use owl_axioms::ClassExpr;

/// What the EL part has of an axiom says the same as the axiom: two inclusions the same as an equivalence, a chain of a
/// role with itself that it is transitive.
pub fn el_bodies_say_the_same()
    ensures { ElBodiesSayTheSame }
{}

/// Each derived inclusion is satisfied in each finite model of the EL part, and each link from C to D as the inclusion of
/// C in the restriction to D.
pub fn derived_is_true()
    ensures { DerivedIsTrue }
{}

/// The expressions of a derived fact are expressions that occur.
pub fn derived_occurs()
    ensures { DerivedOccurs }
{}
