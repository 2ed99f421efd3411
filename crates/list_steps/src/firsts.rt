//! Items, each at its first place.

ghost use Rattle.std.specs.Prelude.{◌≡◌, [], IfOk, OnOk};
ghost use Rattle.bags.specs.Sort.{firsts};
ghost use Rattle.indexmap.specs.IndexSet.{insert_key};

use indexmap::IndexSet;
use std::alloc::{AllocError, Global};
use std::hash::Hash;
use std::marker::Model;

// Items that differ, found by their hashes.
#[derive(Drop)]
struct FirstItems<T: Eq + Hash + Drop> {
    items: IndexSet<T>,
}

impl<T: Eq + Hash + Drop> Model for FirstItems<T> {
    ghost use Rattle.std.specs.Prelude.{List};

    ghost Value = { List T };

    ghost view = { λ f. f.items.keys };
}

impl<T: Eq + Hash + Drop> FirstItems<T> {
    fn new(alloc: Global) -> FirstItems<T>
        ensures { result ≡ [] }
    {
        FirstItems {
            items: IndexSet::new(alloc),
        }
    }

    // An item that is there stays where it is.
    fn add(&mut self, item: T) -> Result<(), AllocError>
        ensures { OnOk result (self.new ≡ insert_key T.eq self.old item) }
    {
        self.items.insert(item)?;
        Ok(())
    }

    fn into_items(self, alloc: Global) -> Result<Vec<T>, AllocError>
        ensures { IfOk result (λ items. items.items ≡ self) }
    {
        let items = Vec::from_iter(alloc, self.items)?;
        Ok(items)
    }
}

/// The first of equal items, in their order.
pub fn first_items<T: Eq + Hash + Drop>(alloc: Global, items: Vec<T>) -> Result<Vec<T>, AllocError>
    ensures { IfOk result (λ kept. kept.items ≡ firsts T.eq [] items.items) }
{
    let mut kept = FirstItems::new(alloc);
    'items: for item in items {
        kept.add(item)?;
    }
    let firsts = kept.into_items(alloc)?;
    Ok(firsts)
}
