//! What is loaded of a run's files.
use obo_to_owl::Dropped;
use owl_ontology::Ontology;
use rel_io::{Bytes, Dup, Items, NoMemory};
use std::alloc::Global;

/// What is noted of a file.
#[derive(PartialEq, Eq, Drop)]
pub struct FileNote {
    /// Its name.
    pub name: Bytes,
    /// How many frames it has; those of one kind and IRI are one.
    pub frames: u64,
    /// Its clauses that are not translated, by line.
    pub dropped: Items<Dropped>,
}

impl Dup for FileNote {
    fn copy(&self, alloc: Global) -> Result<FileNote, NoMemory> {
        let name = self.name.copy(alloc)?;
        let dropped = self.dropped.copy(alloc)?;
        Ok(FileNote {
            name,
            frames: self.frames,
            dropped,
        })
    }
}

/// The ontology of the files, and what is noted of each.
#[derive(Drop)]
pub struct Merged {
    /// The ontology.
    pub ontology: Ontology,
    /// The notes, in the order of the files.
    pub files: Items<FileNote>,
}

impl Dup for Merged {
    fn copy(&self, alloc: Global) -> Result<Merged, NoMemory> {
        let ontology = self.ontology.copy(alloc)?;
        let files = self.files.copy(alloc)?;
        Ok(Merged { ontology, files })
    }
}
