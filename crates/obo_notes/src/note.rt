//! Notes: what is said in words.
use owl_axioms::{NoteValue, Side};
use rel_io::{Dup, Iri, Items, NoMemory};
use std::alloc::Global;

/// What is said in words about an entity or an ontology, whichever it is.
#[derive(PartialEq, Eq, Drop)]
pub struct Note {
    /// The annotation property.
    pub property: Iri,
    /// The value.
    pub value: NoteValue,
    /// What is said about it in turn.
    pub sides: Items<Side>,
}

impl Dup for Note {
    fn copy(&self, alloc: Global) -> Result<Note, NoMemory> {
        let property = self.property.copy(alloc)?;
        let sides = self.sides.copy(alloc)?;
        let value = self.value.copy(alloc)?;
        Ok(Note {
            property,
            value,
            sides,
        })
    }
}
