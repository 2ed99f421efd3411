//! The predicates of each entity.

ghost use Rattle.std.specs.Prelude.{◌≡◌, ◌&&◌, ◌||◌, ◌∷◌, [], ℕ, nat_eq, map, IsPermutation, IfOk, OnOk};
ghost use Rattle.std.specs.List.{list_any, IsDistinct};
ghost use Rattle.std.specs.List.Sorted.{IsStrictlySortedBy};
ghost use Rattle.std.specs.Ordering.{nat_cmp};
ghost use Rattle.std.specs.Map.{keys_of};
ghost use Rattle.pred_colour_meaning.specs.Interference.{has, neighbours_of};
ghost use Rattle.shredder.specs.Items.{item_of};
ghost use Rattle.layout_columns.specs.Entities.{is_pair};

use indexmap::IndexSet;
use shredder::Placed;
use std::alloc::{AllocError, Global};
use std::collections::BTreeMap;
use std::marker::Model;

/// Distinct predicates, one at least, which contracts see as a list. Where there is one alone, as most objects have,
/// it takes no memory of its own.
#[derive(Drop)]
pub(crate) struct Preds {
    first: u32,
    others: IndexSet<u32>,
}

impl Model for Preds {
    ghost use Rattle.std.specs.Prelude.{◌≡◌, ◌∷◌, List, ℕ, nat_eq, false};
    ghost use Rattle.std.specs.List.{list_any};
    ghost use Rattle.std.specs.Coded.{coded_list, coded_ℕ};

    ghost Value = { List ℕ };

    ghost coded = { coded_list coded_ℕ };

    ghost view = { λ p. p.first ∷ p.others.keys };

    ghost invariant = { λ p. list_any (nat_eq p.first) p.others.keys ≡ false };
}

impl Preds {
    fn one(alloc: Global, pred: u32) -> Preds
        ensures { result ≡ pred ∷ [] }
    {
        Preds {
            first: pred,
            others: IndexSet::new(alloc),
        }
    }

    /// The predicates in the order in which they were noted.
    pub(crate) fn listed(&self, alloc: Global) -> Result<Vec<u32>, AllocError>
        ensures value { IfOk result (λ list. list.items ≡ self.now) }
        ensures once { IfOk result (λ list. IsDistinct nat_eq list.items) }
    {
        let mut list = Vec::with_capacity(alloc, 1 + self.others.len())?;
        list.push(self.first)?;
        list.extend_from_slice(self.others.as_slice())?;
        Ok(list)
    }

    /// Notes a predicate, unless it is there.
    fn note(&mut self, pred: u32) -> Result<(), AllocError>
        ensures { OnOk result ((q : ℕ) → has q self.new ≡ (has q self.old || nat_eq q pred)) }
    {
        if pred != self.first {
            self.others.insert(pred)?;
        }
        Ok(())
    }
}

/// Notes that an entity has a predicate.
fn note(
    entities: &mut BTreeMap<u32, Preds>,
    alloc: Global,
    entity: u32,
    pred: u32,
) -> Result<(), AllocError>
    ensures { OnOk result ((e p : ℕ) → has p (neighbours_of entities.new.entries e) ≡ (has p (neighbours_of entities.old.entries e) || (nat_eq e entity && nat_eq p pred))) }
{
    if let Some(preds) = entities.get_mut(&entity) {
        return preds.note(pred);
    }
    entities.insert(entity, Preds::one(alloc, pred))?;
    Ok(())
}

fn note_item(
    entities: &mut BTreeMap<u32, Preds>,
    alloc: Global,
    item: Placed,
) -> Result<(), AllocError>
    ensures { OnOk result ((e p : ℕ) → has p (neighbours_of entities.new.entries e) ≡ (has p (neighbours_of entities.old.entries e) || is_pair e p (item_of item))) }
{
    note(entities, alloc, item.entity, item.pred)
}

fn note_all(
    entities: &mut BTreeMap<u32, Preds>,
    alloc: Global,
    placed: &[Placed],
) -> Result<(), AllocError>
    ensures { OnOk result ((e p : ℕ) → has p (neighbours_of entities.new.entries e) ≡ (has p (neighbours_of entities.old.entries e) || list_any (is_pair e p) (map item_of placed.now))) }
{
    for at in 0..placed.len() {
        note_item(entities, alloc, placed[at])?;
    }
    Ok(())
}

/// The items by rising entity: each entity is then found beside the one before.
fn by_entity(alloc: Global, placed: &[Placed]) -> Result<Vec<Placed>, AllocError>
    ensures { IfOk result (λ items. IsPermutation placed.now items.items) }
{
    let mut items = Vec::from_slice(alloc, placed)?;
    items.sort_by_key(|item| item.entity)?;
    Ok(items)
}

/// The entities of items, each with its predicates.
pub(crate) fn entities_in(
    alloc: Global,
    placed: &[Placed],
) -> Result<BTreeMap<u32, Preds>, AllocError>
    ensures preds { IfOk result (λ entities. (e p : ℕ) → has p (neighbours_of entities.entries e) ≡ list_any (is_pair e p) (map item_of placed.now)) }
    ensures rising { IfOk result (λ entities. IsStrictlySortedBy nat_cmp (keys_of entities.entries)) }
{
    let items = by_entity(alloc, placed)?;
    let mut entities = BTreeMap::new(alloc);
    note_all(&mut entities, alloc, items.as_slice())?;
    // That the entities rise is told by a call.
    let _count = entities.len();
    Ok(entities)
}
