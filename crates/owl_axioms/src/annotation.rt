//! Annotations: what is said about an entity or an axiom in words, and has no meaning in models.
use rel_io::{Bytes, Dup, Iri, NoMemory};
use std::alloc::Global;

/// The value of an annotation.
#[derive(PartialEq, Eq, Hash, Drop)]
pub enum NoteValue {
    /// A plain text.
    Text(Bytes),
    /// A text of a datatype.
    Typed(Bytes, Iri),
    /// An IRI.
    Link(Iri),
}

/// An annotation of an axiom, itself annotated with a label where it has one.
#[derive(PartialEq, Eq, Hash, Drop)]
pub struct Side {
    /// The annotation property.
    pub property: Iri,
    /// The value.
    pub value: NoteValue,
    /// The rdfs:label of the annotation.
    pub label: Option<Bytes>,
}

impl Dup for NoteValue {
    fn copy(&self, alloc: Global) -> Result<NoteValue, NoMemory> {
        match self {
            NoteValue::Text(text) => Ok(NoteValue::Text(text.copy(alloc)?)),
            NoteValue::Typed(text, datatype) => {
                let text = text.copy(alloc)?;
                let datatype = datatype.copy(alloc)?;
                Ok(NoteValue::Typed(text, datatype))
            }
            NoteValue::Link(iri) => Ok(NoteValue::Link(iri.copy(alloc)?)),
        }
    }
}

impl Dup for Side {
    fn copy(&self, alloc: Global) -> Result<Side, NoMemory> {
        let property = self.property.copy(alloc)?;
        let label = self.label.copy(alloc)?;
        let value = self.value.copy(alloc)?;
        Ok(Side {
            property,
            value,
            label,
        })
    }
}
