//! `Document`: the placed clauses of a file.
ghost use Rattle.std.specs.Prelude.{◌≡◌, ◌<◌, Some, length, slice_get};
ghost use Rattle.obo_clause.specs.Spelled.{CanBeSpelled};
ghost use Rattle.obo_frames.specs.Soundness.{IsSound};

use crate::Placed;
use rel_io::{Dup, Items, NoMemory};
use std::alloc::Global;
use std::marker::Model;

/// A document, seen as the list of its placed clauses. Some line spells each of them in its frame. Clauses of the
/// header, and they alone, have an empty id. Each other frame has an `id` clause with its id and without qualifiers, and
/// no Term has a group of one expression alone.
#[derive(Drop)]
pub struct Document {
    placed: Items<Placed>,
}

impl Model for Document {
    ghost use Rattle.std.specs.Prelude.{List};
    ghost use Rattle.std.specs.Coded.{codes};
    ghost use Rattle.obo_frames.specs.Soundness.{IsSound};
    ghost use Rattle.obo_frames.specs.contracts.placed.Placed as row;
    ghost use Rattle.obo_frames.specs.declared.placed.Placed.{Placed};

    ghost Value = { List Placed };

    ghost coded = { Prim.hlevel (codes, row.the_row.coded) };

    ghost view = { λ document. document.placed };

    ghost invariant = { λ document. IsSound document.placed };
}

impl Document {
    /// The document of these placed clauses. It takes no memory.
    pub fn of(placed: Vec<Placed>) -> Document
        requires { IsSound placed.items }
        ensures { result ≡ placed.items }
    {
        Document {
            placed: Items::from_vec(placed),
        }
    }

    /// How many clauses are placed. What every document keeps is told here.
    pub fn len(&self) -> usize
        ensures len { result ≡ length self.now }
        ensures sound { IsSound self.now }
    {
        self.placed.as_slice().len()
    }

    /// The clauses, in their order.
    pub fn as_slice(&self) -> &[Placed]
        ensures { result.now ≡ self.now }
    {
        self.placed.as_slice()
    }

    /// The clause at a place, from 0.
    pub fn get(&self, at: usize) -> &Placed
        requires { at < length self.now }
        ensures clause { slice_get self.now at ≡ Some result.now }
        ensures spelled { CanBeSpelled result.now.clause }
    {
        &self.placed.as_slice()[at]
    }
}

impl Dup for Document {
    fn copy(&self, alloc: Global) -> Result<Document, NoMemory> {
        let placed = self.placed.copy(alloc)?;
        Ok(Document { placed })
    }
}
