//! What the rules and the table amount to. Each law is the contract of a function that changes nothing.
ghost use Rattle.el_numbers.specs.Laws.{AnswersExclude, BelowIsTransitive, SaturatedIsLargest, SaturatedRowsAreOrdered};

/// What is derived below something that is derived below a third is derived below the third, though no rule says so.
pub fn below_is_transitive()
    ensures { BelowIsTransitive }
{}

/// The two answers of `saturate` exclude each other.
pub fn answers_exclude()
    ensures { AnswersExclude }
{}

/// The rows of a saturated table are a reflexive and transitive relation on the expressions, without repeats.
pub fn saturated_rows_are_ordered()
    ensures { SaturatedRowsAreOrdered }
{}

/// No table of derived facts, each once, is larger than a saturated one: so its size is the number of derived facts.
pub fn saturated_is_largest()
    ensures { SaturatedIsLargest }
{}
