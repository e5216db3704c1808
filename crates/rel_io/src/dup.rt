//! `Dup`: copies that are equal to what they copy, and that may find no memory.
ghost use Rattle.std.specs.Prelude.{◌≡◌, IfOk};

use crate::{Boxed, Items, NoMemory};
use std::alloc::Global;

/// A value that can be copied where memory is left.
pub trait Dup: Sized {
    /// A value equal to this one. Where no memory is left for it, nothing has happened.
    fn copy(&self, alloc: Global) -> Result<Self, NoMemory>
        ensures { IfOk result (λ twin. twin ≡ self.now) };
}

impl Dup for u8 {
    fn copy(&self, _alloc: Global) -> Result<u8, NoMemory> {
        Ok(*self)
    }
}

impl Dup for u16 {
    fn copy(&self, _alloc: Global) -> Result<u16, NoMemory> {
        Ok(*self)
    }
}

impl Dup for u32 {
    fn copy(&self, _alloc: Global) -> Result<u32, NoMemory> {
        Ok(*self)
    }
}

impl Dup for u64 {
    fn copy(&self, _alloc: Global) -> Result<u64, NoMemory> {
        Ok(*self)
    }
}

impl Dup for u128 {
    fn copy(&self, _alloc: Global) -> Result<u128, NoMemory> {
        Ok(*self)
    }
}

impl Dup for usize {
    fn copy(&self, _alloc: Global) -> Result<usize, NoMemory> {
        Ok(*self)
    }
}

impl Dup for i8 {
    fn copy(&self, _alloc: Global) -> Result<i8, NoMemory> {
        Ok(*self)
    }
}

impl Dup for i16 {
    fn copy(&self, _alloc: Global) -> Result<i16, NoMemory> {
        Ok(*self)
    }
}

impl Dup for i32 {
    fn copy(&self, _alloc: Global) -> Result<i32, NoMemory> {
        Ok(*self)
    }
}

impl Dup for i64 {
    fn copy(&self, _alloc: Global) -> Result<i64, NoMemory> {
        Ok(*self)
    }
}

impl Dup for i128 {
    fn copy(&self, _alloc: Global) -> Result<i128, NoMemory> {
        Ok(*self)
    }
}

impl Dup for isize {
    fn copy(&self, _alloc: Global) -> Result<isize, NoMemory> {
        Ok(*self)
    }
}

impl Dup for bool {
    fn copy(&self, _alloc: Global) -> Result<bool, NoMemory> {
        Ok(*self)
    }
}

impl<T: Dup> Dup for Option<T> {
    fn copy(&self, alloc: Global) -> Result<Option<T>, NoMemory> {
        match self {
            None => Ok(None),
            Some(value) => {
                let twin = value.copy(alloc)?;
                Ok(Some(twin))
            }
        }
    }
}

impl<A: Dup + Drop, B: Dup> Dup for (A, B) {
    fn copy(&self, alloc: Global) -> Result<(A, B), NoMemory> {
        let first = self.0.copy(alloc)?;
        let second = self.1.copy(alloc)?;
        Ok((first, second))
    }
}

impl<A: Dup + Drop, B: Dup + Drop, C: Dup> Dup for (A, B, C) {
    fn copy(&self, alloc: Global) -> Result<(A, B, C), NoMemory> {
        let first = self.0.copy(alloc)?;
        let second = self.1.copy(alloc)?;
        let third = self.2.copy(alloc)?;
        Ok((first, second, third))
    }
}

impl<T: Dup + Drop> Dup for Items<T> {
    fn copy(&self, alloc: Global) -> Result<Items<T>, NoMemory> {
        let items = copies(alloc, self.as_slice())?;
        Ok(Items::from_vec(items))
    }
}

impl<T: Dup + Drop> Dup for Boxed<T> {
    fn copy(&self, alloc: Global) -> Result<Boxed<T>, NoMemory> {
        let twin = self.get().copy(alloc)?;
        Boxed::new(alloc, twin)
    }
}

/// A copy of each item, in order.
fn copies<T: Dup + Drop>(alloc: Global, items: &[T]) -> Result<Vec<T>, NoMemory>
    ensures { IfOk result (λ twins. twins.items ≡ items.now) }
{
    let mut twins = Vec::with_capacity(alloc, items.len())?;
    for item in items {
        let twin = item.copy(alloc)?;
        twins.push(twin)?;
    }
    Ok(twins)
}
