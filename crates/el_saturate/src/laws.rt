//! What the answers of a saturation have to do with each other. The law is the contract of a function that does nothing.
ghost use Rattle.el_saturate.specs.Table.{AnswersExclude};

use owl_axioms::ClassExpr;

/// The two answers of `saturate` exclude each other.
pub fn answers_exclude()
    ensures { AnswersExclude }
{}
