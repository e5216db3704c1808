//! Entities: classes, object properties, individuals and annotation properties, each named by an IRI.
use rel_io::{Dup, Iri, NoMemory};
use std::alloc::Global;

/// The kinds of entities that axioms speak of.
#[derive(Clone, Copy, PartialEq, Eq, Hash)]
pub enum Kind {
    /// A class.
    Class,
    /// An object property.
    Role,
    /// A named individual.
    Individual,
    /// An annotation property.
    AnnotationProperty,
}

/// An entity: one IRI may name several, one of each kind.
#[derive(PartialEq, Eq, Hash, Drop)]
pub struct Name {
    /// What kind of entity it is.
    pub kind: Kind,
    /// The IRI that names it.
    pub iri: Iri,
}

impl Dup for Kind {
    fn copy(&self, _alloc: Global) -> Result<Kind, NoMemory> {
        Ok(*self)
    }
}

impl Dup for Name {
    fn copy(&self, alloc: Global) -> Result<Name, NoMemory> {
        let iri = self.iri.copy(alloc)?;
        Ok(Name {
            kind: self.kind,
            iri,
        })
    }
}
