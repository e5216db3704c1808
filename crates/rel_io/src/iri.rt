//! `Iri`: the name of an entity on the web, seen as the list of its bytes.
ghost use Rattle.std.specs.Prelude.{◌≡◌, IfOk};

use crate::{Bytes, Dup, NoMemory};
use std::alloc::Global;
use std::marker::Model;

/// The IRI of a class, a role, an individual, an annotation property or a datatype (OWL 2 Structural
/// Specification, section 2.4), ordered byte by byte. The type itself keeps any bytes.
#[derive(Debug, PartialEq, Eq, PartialOrd, Ord, Hash, Drop)]
pub struct Iri {
    text: Bytes,
}

impl Model for Iri {
    ghost use Rattle.std.specs.Prelude.{List, ℕ};

    ghost Value = { List ℕ };

    ghost view = { λ iri. iri.text };

    ghost inverse = { λ bytes. record { text = bytes } };
}

impl Iri {
    /// Takes over the bytes of a `Vec`, without memory.
    pub fn from_vec(items: Vec<u8>) -> Iri
        ensures { result ≡ items.items }
    {
        Iri {
            text: Bytes::from_vec(items),
        }
    }

    /// The bytes of a slice, copied.
    pub fn from_slice(alloc: Global, bytes: &[u8]) -> Result<Iri, NoMemory>
        ensures { IfOk result (λ copied. copied ≡ bytes.now) }
    {
        let text = Bytes::from_slice(alloc, bytes)?;
        Ok(Iri { text })
    }

    /// Gives the bytes back, without memory.
    pub fn into_vec(self) -> Vec<u8>
        ensures { result.items ≡ self }
    {
        let Iri { text } = self;
        text.into_vec()
    }

    /// The bytes, lent.
    pub fn as_slice(&self) -> &[u8]
        ensures { result.now ≡ self.now }
    {
        self.text.as_slice()
    }
}

impl Dup for Iri {
    fn copy(&self, alloc: Global) -> Result<Iri, NoMemory> {
        let text = self.text.copy(alloc)?;
        Ok(Iri { text })
    }
}
