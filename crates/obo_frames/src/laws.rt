//! What the definitions of this crate amount to. Each law is the contract of a function that does nothing.
ghost use Rattle.obo_frames.specs.Answer.{IsExact};
ghost use Rattle.obo_frames.specs.Laws.{FirstFaultIsLeast, HasOneFault, IsDocumentOrFault, IsNeverBoth, IsOneDocument, LinesRise, LinesSpell, NameIsLeast, PiecesJoin, RunsReadFiles, SameClausesSayTheSame};

/// A file is one document, or it has one first fault, and never both.
pub fn file_is_document_or_fault(bytes: &[u8], line_limit: u32)
    ensures some { IsDocumentOrFault line_limit bytes.now }
    ensures never_both { IsNeverBoth line_limit bytes.now }
    ensures one_document { IsOneDocument line_limit bytes.now }
    ensures one_fault { HasOneFault line_limit bytes.now }
{}

/// The clauses of a document stand in the order of their lines, and each is spelled by the line that it names; of an
/// `id` clause that gives a frame its id the qualifiers are not kept.
pub fn lines_are_placed(bytes: &[u8], line_limit: u32)
    ensures rise { LinesRise line_limit bytes.now }
    ensures spell { LinesSpell line_limit bytes.now }
{}

/// How a file is cut into pieces does not matter: a feeder to which they were fed comes to the document of the whole file,
/// or to its first fault.
pub fn cutting_does_not_matter()
    ensures pieces { PiecesJoin }
    ensures runs { RunsReadFiles }
{}

/// Of all frames without an id and all clauses of short groups the first fault names the least line; without one there
/// is neither.
pub fn first_fault_is_least()
    ensures { FirstFaultIsLeast }
{}

/// The function that tells what a file comes to tells its document exactly where it has one, and its first fault exactly
/// where it has one.
pub fn file_is_told(bytes: &[u8], line_limit: u32)
    ensures { IsExact line_limit bytes.now }
{}

/// Of all names that the header gives the ontology has the least, each taken in its normal form.
pub fn name_is_least()
    ensures { NameIsLeast }
{}

/// Whether clauses are those of a document, whether a group is short, and the name of the ontology depend on the set of
/// the clauses in their frames alone: not on their lines, their order and their repeats.
pub fn clauses_are_a_set()
    ensures { SameClausesSayTheSame }
{}
