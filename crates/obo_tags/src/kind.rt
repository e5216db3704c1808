//! The kinds of frames, and the shapes of the values in them.
use rel_io::{Dup, NoMemory};
use std::alloc::Global;

/// What a clause belongs to: the header, or a frame that its frame line names.
#[derive(Clone, Copy, Debug, PartialEq, Eq)]
pub enum FrameKind {
    /// The lines before the first frame line.
    Header,
    /// What `[Term]` begins: a class.
    Term,
    /// What `[Typedef]` begins: a relation.
    Typedef,
    /// What `[Instance]` begins: an individual.
    Instance,
}

/// What stands behind a tag and its colon.
#[derive(Clone, Copy, Debug, PartialEq, Eq)]
pub enum ValueShape {
    /// A run of characters, which may be empty.
    Text,
    /// One word.
    Id,
    /// Two words.
    Pair,
    /// One word, or two.
    IdOrPair,
    /// `true` or `false`.
    Bool,
    /// A quoted text, and its xrefs.
    Def,
    /// A quoted text, its scope, its type, and its xrefs.
    Synonym,
    /// A run of characters, and its quoted label.
    XrefShape,
    /// A property, and a quoted text with its datatype or a word.
    Property,
    /// A word and a quoted text.
    SubsetDef,
    /// A word, a quoted text and its scope.
    SynonymDef,
    /// The rest of the line as it stands.
    Raw,
}

impl Dup for FrameKind {
    fn copy(&self, _alloc: Global) -> Result<FrameKind, NoMemory> {
        Ok(*self)
    }
}

impl Dup for ValueShape {
    fn copy(&self, _alloc: Global) -> Result<ValueShape, NoMemory> {
        Ok(*self)
    }
}
