//! Edges of a taxonomy.
use rel_io::{Dup, Iri, NoMemory};
use std::alloc::Global;

/// That one class is below another.
#[derive(PartialEq, Eq, PartialOrd, Ord, Drop)]
pub struct Edge {
    /// The class below.
    pub sub: Iri,
    /// The class above.
    pub sup: Iri,
}

impl Dup for Edge {
    fn copy(&self, alloc: Global) -> Result<Edge, NoMemory> {
        let sub = self.sub.copy(alloc)?;
        let sup = self.sup.copy(alloc)?;
        Ok(Edge { sub, sup })
    }
}
