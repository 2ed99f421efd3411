//! Copies of modifiers and of variables' names.

ghost use Rattle.std.specs.Prelude.{◌≡◌, IfOk};

use query_meaning::Modifiers;
use rdf_meaning::Text;
use sqlite_items::Items;
use std::alloc::{AllocError, Global};

/// Equal texts.
pub fn copy_names(alloc: Global, names: &[Text]) -> Result<Items<Text>, AllocError>
    ensures { IfOk result (λ xs. xs ≡ names.now) }
{
    let mut copies = Items::new(alloc);
    for name in names {
        let copy = name.copy(alloc)?;
        copies.push(copy)?;
    }
    Ok(copies)
}

/// Equal modifiers.
pub fn copy_modifiers(alloc: Global, modifiers: &Modifiers) -> Result<Modifiers, AllocError>
    ensures { IfOk result (λ x. x ≡ modifiers.now) }
{
    Ok(Modifiers {
        shown: Items::from_slice(alloc, modifiers.shown.as_slice())?,
        distinct: modifiers.distinct,
        keys: Items::from_slice(alloc, modifiers.keys.as_slice())?,
        skip: modifiers.skip,
        most: modifiers.most,
    })
}
