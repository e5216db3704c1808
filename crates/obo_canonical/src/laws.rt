//! What the canonical text amounts to. Each law is the contract of a function that does nothing.
ghost use Rattle.obo_canonical.specs.Laws.{CanonicalIsOfSet, CanonicalReadsBack, CanonisingTwiceIsOnce, NormIsOfSet};

/// The normal form depends on the set of clauses alone: neither on their order, nor on repeats, nor on lines.
pub fn norm_is_of_set()
    ensures { NormIsOfSet }
{}

/// So does the canonical text.
pub fn canonical_is_of_set()
    ensures { CanonicalIsOfSet }
{}

/// The canonical text is a file with the clauses of the normal form, where no line of it is longer than the limit.
pub fn canonical_reads_back()
    ensures { CanonicalReadsBack }
{}

/// Canonising twice is once: the canonical text reads without a fault, and what it reads as has the same canonical text.
pub fn canonising_twice_is_once()
    ensures { CanonisingTwiceIsOnce }
{}
