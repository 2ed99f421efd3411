//! The items of a bulk, each once.

ghost use Rattle.std.specs.Prelude.{◌≡◌, ◌∷◌, ◌++◌, [], false, length, map, OnOk};
ghost use Rattle.shredder.specs.Items.{item_of};
ghost use Rattle.rdf_layout.specs.Gathered.{is_among};

use indexmap::IndexSet;
use shredder::Placed;
use std::alloc::{AllocError, Global};
use std::marker::Model;

/// Items in the order in which they came, which contracts see as a list.
#[derive(Drop)]
pub(crate) struct ItemSet {
    placed: IndexSet<Placed>,
}

impl Model for ItemSet {
    ghost use Rattle.std.specs.Prelude.{List, map};
    ghost use Rattle.layout_meaning.specs.Side.{Item};
    ghost use Rattle.shredder.specs.Items.{item_of};

    ghost Value = { List Item };

    ghost view = { λ s. map item_of s.placed.keys };
}

impl ItemSet {
    pub(crate) fn new(alloc: Global) -> ItemSet
        ensures { result ≡ [] }
    {
        ItemSet {
            placed: IndexSet::new(alloc),
        }
    }

    /// Whether an item is there.
    pub(crate) fn has(&self, item: Placed) -> bool
        ensures { result ≡ is_among self.now (item_of item) }
    {
        self.placed.contains(&item)
    }

    /// Puts an item last that isn't there.
    pub(crate) fn push(&mut self, item: Placed) -> Result<(), AllocError>
        requires { is_among self.old (item_of item) ≡ false }
        ensures { OnOk result (self.new ≡ self.old ++ item_of item ∷ []) }
    {
        self.placed.insert(item)?;
        Ok(())
    }

    /// How many items there are.
    pub(crate) fn count(&self) -> u64
        ensures { result ≡ length self.now }
    {
        self.placed.len() as u64
    }

    pub(crate) fn as_slice(&self) -> &[Placed]
        ensures { map item_of result.now ≡ self.now }
    {
        self.placed.as_slice()
    }
}
