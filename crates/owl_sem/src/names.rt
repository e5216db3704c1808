//! What depends on names alone: interpretations that agree over the names of an expression or an axiom cannot be told
//! apart by it.
ghost use Rattle.owl_sem.specs.Laws.{MembersDependOnNames, ModelsDependOnNames, SatisfactionDependsOnNames};

use owl_axioms::ClassExpr;

/// Which elements an expression has depends on its names alone.
pub fn members_depend_on_names()
    ensures { MembersDependOnNames }
{}

/// Whether an axiom is satisfied depends on its names alone.
pub fn satisfaction_depends_on_names()
    ensures { SatisfactionDependsOnNames }
{}

/// Which interpretations are models of axioms depends on their names alone.
pub fn models_depend_on_names()
    ensures { ModelsDependOnNames }
{}
