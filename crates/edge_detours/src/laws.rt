//! What the definition of redundant edges amounts to. The law is the contract of a function that changes nothing.
ghost use Rattle.edge_detours.specs.Laws.{ReachIsKept};

/// Of two lists of edges of which the second has each edge of the first that is not redundant in the first, the second
/// reaches what the first reaches. Cycles of every size included.
pub fn reach_is_kept()
    ensures { ReachIsKept }
{}
