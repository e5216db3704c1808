//! What the plain functions amount to. Each law is the contract of a function that does nothing.
ghost use Rattle.plain_reasoning.specs.Laws.{
  EdgesOfAreDirect,
  FactsAreDerived,
  ReasonOfIsTheAnswer,
  ViewIsElPart,
};

/// The EL part as a function of axioms is their EL part.
pub fn view_is_el_part()
    ensures { ViewIsElPart }
{}

/// The facts as a function of axioms are those that are derived in their EL part, each once.
pub fn facts_are_derived()
    ensures { FactsAreDerived }
{}

/// The edges as a function of axioms are the one list of the direct edges that are not stated, in the order of their names.
pub fn edges_of_are_direct()
    ensures { EdgesOfAreDirect }
{}

/// The answer of the plain function is right, and is the only right one: that the step answers so is what its contract says.
pub fn reason_of_is_the_answer()
    ensures { ReasonOfIsTheAnswer }
{}
