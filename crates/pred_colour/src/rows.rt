//! The rows of a graph: for each predicate the places of those that it occurs with.

ghost use Rattle.std.specs.Prelude.{◌≡◌, ◌<◌, ◌&&◌, ◌||◌, ℕ, nat_eq, length, true, map, IfOk, OnOk};
ghost use Rattle.std.specs.List.{list_any};
ghost use Rattle.std.specs.List.Sorted.{IsStrictlySortedBy};
ghost use Rattle.std.specs.Ordering.{nat_cmp};
ghost use Rattle.pred_colour_meaning.specs.Interference.{has};
ghost use Rattle.pred_colour.specs.Entities.{preds_of, are_joined};
ghost use Rattle.pred_colour.specs.GraphRows.{pred_at, row_at, is_other, AreBelow, AreRows};

use crate::graph::EntityPreds;
use crate::places::{empty_sets, places_of};
use bit_sets::BitSet;
use std::alloc::{AllocError, Global};

/// A row for each of all predicates, which rise: two are joined where some entity has both.
pub(crate) fn joined(
    alloc: Global,
    all: &[u32],
    entities: &[EntityPreds],
) -> Result<Vec<BitSet>, AllocError>
    requires rising { IsStrictlySortedBy nat_cmp all.now }
    requires among { (p : ℕ) → list_any (has p) (map preds_of entities.now) ≡ true → has p all.now ≡ true }
    ensures rows { IfOk result (λ rows. AreRows all.now rows.items) }
    ensures joined { IfOk result (λ rows. (i q : ℕ) → i < length all.now → is_other all.now (row_at rows.items i) (pred_at all.now i) q ≡ list_any (are_joined (pred_at all.now i) q) (map preds_of entities.now)) }
{
    let mut rows = empty_sets(alloc, all.len())?;
    for entity in entities {
        join_entity(rows.as_mut_slice(), alloc, all, entity.preds.as_slice())?;
    }
    Ok(rows)
}

/// Joins the predicates of one entity.
fn join_entity(
    rows: &mut [BitSet],
    alloc: Global,
    all: &[u32],
    preds: &[u32],
) -> Result<(), AllocError>
    requires rows { AreRows all.now rows.old }
    requires among { (p : ℕ) → has p preds.now ≡ true → has p all.now ≡ true }
    ensures rows { OnOk result (AreRows all.now rows.new) }
    ensures joined { OnOk result ((i q : ℕ) → i < length all.now → is_other all.now (row_at rows.new i) (pred_at all.now i) q ≡ (is_other all.now (row_at rows.old i) (pred_at all.now i) q || are_joined (pred_at all.now i) q preds.now)) }
{
    // One predicate joins nothing: such entities cost no memory.
    if preds.len() < 2 {
        return Ok(());
    }
    let set = places_of(alloc, all, preds)?;
    let places = set.numbers(alloc)?;
    join_rows(rows, places.as_slice(), &set)
}

/// Puts a set into the rows of these places.
fn join_rows(rows: &mut [BitSet], places: &[u32], set: &BitSet) -> Result<(), AllocError>
    requires { AreBelow (length rows.old) places.now }
    ensures count { OnOk result (length rows.new ≡ length rows.old) }
    ensures joined { OnOk result ((i n : ℕ) → has n (row_at rows.new i) ≡ (has n (row_at rows.old i) || (has i places.now && has n set.now))) }
{
    for place in places {
        join_row(rows, *place as usize, set)?;
    }
    Ok(())
}

fn join_row(rows: &mut [BitSet], place: usize, set: &BitSet) -> Result<(), AllocError>
    requires { place < length rows.old }
    ensures count { OnOk result (length rows.new ≡ length rows.old) }
    ensures joined { OnOk result ((i n : ℕ) → has n (row_at rows.new i) ≡ (has n (row_at rows.old i) || (nat_eq i place && has n set.now))) }
{
    rows[place].union_with(set)
}
