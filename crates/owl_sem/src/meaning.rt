//! Class expressions and axioms mean what they mean in the standard.
ghost use Rattle.owl_sem.specs.Laws.{AxiomsAre, FillersAre, NumbersAre, ThingAndNothing, TwoComplements};

use owl_axioms::ClassExpr;

/// owl:Thing has every element, and owl:Nothing none.
pub fn thing_and_nothing()
    ensures { ThingAndNothing }
{}

/// The complement of the complement is the expression itself.
pub fn two_complements()
    ensures { TwoComplements }
{}

/// Some and All say of the elements that a role leads to what their names say, and All is no Some outside.
pub fn fillers_are()
    ensures { FillersAre }
{}

/// How Min, Max and Exact stand to Some and to one another.
pub fn numbers_are()
    ensures { NumbersAre }
{}

/// Axioms that can be said by others say the same as those.
pub fn axioms_are()
    ensures { AxiomsAre }
{}
