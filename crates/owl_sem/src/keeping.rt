//! Keeping, which is what every step of a run promises of its axioms.
ghost use Rattle.owl_sem.specs.Laws.{AddingEntailedKeeps, KeepingAllComposes, KeepingComposes, KeepingIsReflexive, KeepingLess, LogicalKeeps, SameAxiomsKeep, TakingEntailedKeeps};

use owl_axioms::ClassExpr;

/// Axioms keep themselves, over each scope.
pub fn keeping_is_reflexive()
    ensures { KeepingIsReflexive }
{}

/// What keeps over some names, and then over others, keeps over the names of both.
pub fn keeping_composes()
    ensures { KeepingComposes }
{}

/// What keeps over all names, and then again, keeps over all names.
pub fn keeping_all_composes()
    ensures { KeepingAllComposes }
{}

/// What keeps over some names keeps over fewer.
pub fn keeping_less()
    ensures { KeepingLess }
{}

/// Axioms that follow from others may be added to them.
pub fn adding_entailed_keeps()
    ensures { AddingEntailedKeeps }
{}

/// Axioms that follow from the rest may be taken away.
pub fn taking_entailed_keeps()
    ensures { TakingEntailedKeeps }
{}

/// In which order axioms stand, and how often, does not matter.
pub fn same_axioms_keep()
    ensures { SameAxiomsKeep }
{}

/// Axioms that are not logical do not matter.
pub fn logical_keeps()
    ensures { LogicalKeeps }
{}
