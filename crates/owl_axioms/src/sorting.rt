//! Values in the order of a text, each text once.
ghost use Rattle.std.specs.Prelude.{◌≡◌, IfOk, nat_eq, refl};
ghost use Rattle.std.specs.Cmp.{partial_equiv_from_equiv, po};
ghost use Rattle.std.specs.Cmp.Lexicographic.{on_texts, on_texts_equal, pointwise, slice_cmp, texts_ties};
ghost use Rattle.std.specs.Ordering.{as_partial_cmp, nat_cmp, on};
ghost use Rattle.owl_axioms.specs.inner.Sorting.{AreOrdered, values_of};

use rel_io::{Bytes, NoMemory};
use std::alloc::Global;
use std::cmp::Ordering;

/// A value beside its text, compared by the text alone.
#[derive(Drop)]
pub struct Worded<T> {
    /// The text.
    pub text: Bytes,
    /// The value.
    pub value: T,
}

impl<T> PartialEq for Worded<T> {
    ghost eq = { on (λ w. w.text) (pointwise nat_eq) };

    ghost laws = { partial_equiv_from_equiv (on_texts_equal (λ w. w.text)) };

    fn eq(&self, other: &Worded<T>) -> bool {
        self.text == other.text
    }
}

impl<T> Eq for Worded<T> {
    ghost laws = { on_texts_equal (λ w. w.text) };
}

impl<T> PartialOrd for Worded<T> {
    ghost partial_cmp = { as_partial_cmp (on (λ w. w.text) (slice_cmp nat_cmp)) };

    ghost laws = { po (on_texts (λ w. w.text)) (λ x y. texts_ties x.text y.text) };

    fn partial_cmp(&self, other: &Worded<T>) -> Option<Ordering> {
        Some(self.cmp(other))
    }
}

impl<T> Ord for Worded<T> {
    ghost cmp = { on (λ w. w.text) (slice_cmp nat_cmp) };

    ghost total = { on_texts (λ w. w.text) };

    ghost matches_partial_cmp = { λ x y. refl };

    ghost matches_eq = { λ x y. texts_ties x.text y.text };

    fn cmp(&self, other: &Worded<T>) -> Ordering {
        self.text.cmp(&other.text)
    }
}

/// The values in the order of their texts, each text once.
pub fn ordered<T: Drop>(given: Vec<Worded<T>>) -> Vec<Worded<T>>
    ensures { AreOrdered given.items result.items }
{
    let mut kept = given;
    kept.sort_unstable();
    kept.dedup();
    kept
}

/// The values without their texts.
pub fn values<T: Drop>(alloc: Global, given: Vec<Worded<T>>) -> Result<Vec<T>, NoMemory>
    ensures { IfOk result (λ values. values.items ≡ values_of given.items) }
{
    let mut values = Vec::with_capacity(alloc, given.len())?;
    for one in given {
        values.push(one.value)?;
    }
    Ok(values)
}
