//! Lists that grow by one item.
ghost use Rattle.std.specs.Prelude.{◌≡◌, [], ◌∷◌, ◌++◌, IfOk};

use rel_io::{Items, NoMemory};

/// A list with one more item at its end.
pub fn pushed<T: Drop>(list: Items<T>, item: T) -> Result<Items<T>, NoMemory>
    ensures { IfOk result (λ longer. longer ≡ list ++ item ∷ []) }
{
    let mut items = list.into_vec();
    items.push(item)?;
    Ok(Items::from_vec(items))
}
