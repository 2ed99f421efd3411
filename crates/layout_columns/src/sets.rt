//! The distinct sets of predicates of entities.

ghost use Rattle.std.specs.Prelude.{◌≡◌, [], nat_eq, map, vec_items, IsPermutation, IfOk, OnOk};
ghost use Rattle.std.specs.Cmp.Lexicographic.{pointwise};
ghost use Rattle.std.specs.List.{AllByRecursion, IsDistinct};
ghost use Rattle.std.specs.List.Sorted.{IsStrictlySortedBy};
ghost use Rattle.std.specs.Map.{values_of};
ghost use Rattle.std.specs.Ordering.{nat_cmp};
ghost use Rattle.indexmap.specs.IndexSet.{insert_key};
ghost use Rattle.pred_colour.specs.Entities.{preds_of};
ghost use Rattle.layout_columns.specs.Entities.{JoinAlike};

use crate::entities::Preds;
use indexmap::IndexSet;
use pred_colour::EntityPreds;
use std::alloc::{AllocError, Global};
use std::collections::BTreeMap;
use std::marker::Model;

/// Lists of predicates that differ, which contracts see as lists.
#[derive(Drop)]
struct PredLists {
    lists: IndexSet<Vec<u32>>,
}

impl Model for PredLists {
    ghost use Rattle.std.specs.Prelude.{List, ℕ, map, vec_items};

    ghost Value = { List (List ℕ) };

    ghost view = { λ p. map vec_items p.lists.keys };
}

impl PredLists {
    fn new(alloc: Global) -> PredLists
        ensures { result ≡ [] }
    {
        PredLists {
            lists: IndexSet::new(alloc),
        }
    }

    /// Puts a list last, unless an equal one is there.
    fn note(&mut self, list: Vec<u32>) -> Result<(), AllocError>
        ensures { OnOk result (self.new ≡ insert_key (pointwise nat_eq) self.old list.items) }
    {
        self.lists.insert(list)?;
        Ok(())
    }

    fn into_lists(self, alloc: Global) -> Result<Vec<Vec<u32>>, AllocError>
        ensures lists { IfOk result (λ lists. map vec_items lists.items ≡ self) }
        ensures once { OnOk result (IsDistinct (pointwise nat_eq) self) }
    {
        // That the lists differ is told by a call.
        let _count = self.lists.len();
        let lists = Vec::from_iter(alloc, self.lists)?;
        Ok(lists)
    }
}

/// Distinct predicates by rising id, so that equal sets are equal lists.
fn rising(alloc: Global, preds: &Preds) -> Result<Vec<u32>, AllocError>
    ensures permutation { IfOk result (λ rising. IsPermutation preds.now rising.items) }
    ensures rising { IfOk result (λ rising. IsStrictlySortedBy nat_cmp rising.items) }
{
    let mut rising = preds.listed(alloc)?;
    rising.sort_unstable();
    Ok(rising)
}

/// The predicates of the entities by rising id, equal sets once.
fn rising_sets(alloc: Global, entities: &BTreeMap<u32, Preds>) -> Result<PredLists, AllocError>
    ensures joined { IfOk result (λ sets. JoinAlike sets (values_of entities.now.entries)) }
    ensures rising { IfOk result (AllByRecursion (IsStrictlySortedBy nat_cmp)) }
{
    let mut sets = PredLists::new(alloc);
    for (_entity, preds) in entities {
        let set = rising(alloc, preds)?;
        sets.note(set)?;
    }
    Ok(sets)
}

fn as_entities(alloc: Global, sets: Vec<Vec<u32>>) -> Result<Vec<EntityPreds>, AllocError>
    ensures { IfOk result (λ list. map preds_of list.items ≡ map vec_items sets.items) }
{
    let mut list = Vec::new(alloc);
    'sets: for preds in sets {
        list.push(EntityPreds { preds })?;
    }
    Ok(list)
}

/// Each set of predicates that some entity has, once, by rising id.
pub(crate) fn distinct_sets(
    alloc: Global,
    entities: &BTreeMap<u32, Preds>,
) -> Result<Vec<EntityPreds>, AllocError>
    ensures joined { IfOk result (λ list. JoinAlike (map preds_of list.items) (values_of entities.now.entries)) }
    ensures rising { IfOk result (λ list. AllByRecursion (IsStrictlySortedBy nat_cmp) (map preds_of list.items)) }
    ensures once { IfOk result (λ list. IsDistinct (pointwise nat_eq) (map preds_of list.items)) }
{
    let sets = rising_sets(alloc, entities)?;
    let distinct = sets.into_lists(alloc)?;
    as_entities(alloc, distinct)
}
