//! Derivations over numbers are derivations over expressions.
ghost use Rattle.el_rules.specs.Numbering.{DerivedHasNumbers, NumbersDeriveTheSame};

use el_numbers::Fact;
use owl_axioms::ClassExpr;

/// Where numbers and occurring expressions are one to one, what is derived of numbers is what is derived of the
/// expressions that they stand for.
pub fn numbers_derive_the_same()
    ensures { NumbersDeriveTheSame }
{}

/// And each fact that is derived over expressions is one of numbers.
pub fn derived_has_numbers()
    ensures { DerivedHasNumbers }
{}
