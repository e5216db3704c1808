//! Items beside the texts by which they are sorted.
ghost use Rattle.std.specs.Prelude.{◌≡◌, ℕ, IfOk, List, nat_eq, refl};
ghost use Rattle.std.specs.Cmp.{on_equiv, on_per, on_po, on_total, partial_equiv_from_equiv};
ghost use Rattle.std.specs.Cmp.Lexicographic.{pointwise, texts_po, texts_ties};
ghost use Rattle.std.specs.Ordering.{as_partial_cmp};
ghost use Rattle.std.proofs.lemmas.Cmp.{nat_list_cmp_total, nat_list_eq_equiv};
ghost use Rattle.text_sets.specs.Keyed.{AreKeyed, items_of};
ghost use Rattle.text_sets.specs.Sets.{AreTold};
ghost use Rattle.text_sets.specs.Sorted.{by_text, sorted_by};

use std::alloc::{AllocError, Global};
use std::cmp::Ordering;

/// An item and its text. It is compared by the text alone.
#[derive(Drop)]
pub struct Keyed<T: Drop> {
    /// The text, byte by byte.
    pub text: Vec<u8>,
    /// The item.
    pub item: T,
}

impl<T: Drop> PartialEq for Keyed<T> {
    ghost eq = { λ one other. pointwise nat_eq one.text.items other.text.items };

    ghost laws = { on_per (λ k. k.text.items) (partial_equiv_from_equiv nat_list_eq_equiv) };

    fn eq(&self, other: &Keyed<T>) -> bool {
        self.text.as_slice() == other.text.as_slice()
    }
}

impl<T: Drop> Eq for Keyed<T> {
    ghost laws = { on_equiv (λ k. k.text.items) nat_list_eq_equiv };
}

impl<T: Drop> PartialOrd for Keyed<T> {
    ghost partial_cmp = { as_partial_cmp (by_text (λ k. k.text.items)) };

    ghost laws = { on_po (λ k. k.text.items) texts_po };

    fn partial_cmp(&self, other: &Keyed<T>) -> Option<Ordering> {
        Some(self.cmp(other))
    }
}

impl<T: Drop> Ord for Keyed<T> {
    ghost cmp = { by_text (λ k. k.text.items) };

    ghost total = { on_total (λ k. k.text.items) nat_list_cmp_total };

    ghost matches_partial_cmp = { λ x y. refl };

    ghost matches_eq = { λ x y. texts_ties x.text.items y.text.items };

    fn cmp(&self, other: &Keyed<T>) -> Ordering {
        self.text.as_slice().cmp(other.text.as_slice())
    }
}

/// The items in the order of their texts, each once, where equal texts stand beside equal items. It takes no memory, and
/// time in proportion to a sort.
pub fn sorted_once<T: Drop>(keyed: Vec<Keyed<T>>) -> Vec<Keyed<T>>
    ensures { (text : T → List ℕ) → AreKeyed text keyed.items → AreTold text (items_of keyed.items)
        → items_of result.items ≡ sorted_by text (items_of keyed.items) }
{
    let mut keyed = keyed;
    keyed.sort_unstable();
    keyed.dedup();
    keyed
}

/// The items without their texts.
pub fn items_of<T: Drop>(alloc: Global, keyed: Vec<Keyed<T>>) -> Result<Vec<T>, AllocError>
    ensures { IfOk result (λ items. items.items ≡ items_of keyed.items) }
{
    let mut items = Vec::with_capacity(alloc, keyed.len())?;
    for one in keyed {
        items.push(one.item)?;
    }
    Ok(items)
}
