//! Items in the order of what is printed of them, each once.
ghost use Rattle.std.specs.Prelude.{◌≡◌, ◌++◌, ℕ, IfOk, List, OnOk, map};
ghost use Rattle.clause_printer.specs.Printing.{qualifier_text, value_text, xref_text};
ghost use Rattle.owl_axioms.specs.Text.{side_text};
ghost use Rattle.text_sets.specs.Keyed.{items_of, key_of};
ghost use Rattle.text_sets.specs.Sets.{AreTold};
ghost use Rattle.text_sets.specs.Sorted.{sorted_by};

use crate::side_text::push_side;
use clause_printer::{push_qualifier, push_value, push_xref};
use obo_clause::{Qualifier, Value, Xref};
use owl_axioms::Side;
use rel_io::{Items, NoMemory};
use std::alloc::Global;
use text_sets::{Keyed, items_of, sorted_once};

/// An item with a text.
pub trait Printed: Sized {
    /// The text.
    ghost text: { Self → List ℕ };

    /// Appends the text.
    fn push_text(&self, out: &mut Vec<u8>) -> Result<(), NoMemory>
        ensures { OnOk result (out.new.items ≡ out.old.items ++ text self.now) };
}

impl Printed for Xref {
    ghost text = { xref_text };

    fn push_text(&self, out: &mut Vec<u8>) -> Result<(), NoMemory> {
        push_xref(out, self)
    }
}

impl Printed for Qualifier {
    ghost text = { qualifier_text };

    fn push_text(&self, out: &mut Vec<u8>) -> Result<(), NoMemory> {
        push_qualifier(out, self)
    }
}

impl Printed for Value {
    ghost text = { value_text };

    fn push_text(&self, out: &mut Vec<u8>) -> Result<(), NoMemory> {
        push_value(out, self)
    }
}

impl Printed for Side {
    ghost text = { side_text };

    fn push_text(&self, out: &mut Vec<u8>) -> Result<(), NoMemory> {
        push_side(out, self)
    }
}

/// The items in the order of their texts, each once.
pub fn sorted<T: Printed + Drop>(alloc: Global, items: Vec<T>) -> Result<Items<T>, NoMemory>
    requires told { AreTold T.text items.items }
    ensures { IfOk result (λ sorted. sorted ≡ sorted_by T.text items.items) }
{
    let keyed = keyed(alloc, items)?;
    let items = items_of(alloc, sorted_once(keyed))?;
    Ok(Items::from_vec(items))
}

/// The items beside their texts.
fn keyed<T: Printed + Drop>(alloc: Global, items: Vec<T>) -> Result<Vec<Keyed<T>>, NoMemory>
    ensures items { IfOk result (λ keyed. items_of keyed.items ≡ items.items) }
    ensures texts { IfOk result (λ keyed. map key_of keyed.items ≡ map T.text items.items) }
{
    let mut keyed = Vec::with_capacity(alloc, items.len())?;
    for item in items {
        let text = text_of(alloc, &item)?;
        keyed.push(Keyed { text, item })?;
    }
    Ok(keyed)
}

/// The text of an item.
fn text_of<T: Printed>(alloc: Global, item: &T) -> Result<Vec<u8>, NoMemory>
    ensures { IfOk result (λ text. text.items ≡ T.text item.now) }
{
    let mut text = Vec::new(alloc);
    item.push_text(&mut text)?;
    Ok(text)
}
