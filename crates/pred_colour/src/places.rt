//! The places of predicates.

ghost use Rattle.std.specs.Prelude.{◌≡◌, ◌<◌, ◌||◌, [], ℕ, nat_eq, not, length, replicate, true, false, IfSome, IfNone, IfOk, OnOk};
ghost use Rattle.std.specs.List.{filter};
ghost use Rattle.std.specs.List.Sorted.{IsStrictlySortedBy};
ghost use Rattle.std.specs.Ordering.{nat_cmp};
ghost use Rattle.pred_colour_meaning.specs.Interference.{has};
ghost use Rattle.pred_colour.specs.GraphRows.{pred_at, stands_in, AreBelow};

use bit_sets::BitSet;
use std::alloc::{AllocError, Global};

/// The place of a predicate among rising ones.
pub(crate) fn place_of(preds: &[u32], pred: u32) -> Option<u32>
    requires { IsStrictlySortedBy nat_cmp preds.now }
    ensures within { IfSome result (λ place. place < length preds.now) }
    ensures found { IfSome result (λ place. pred_at preds.now place ≡ pred) }
    ensures absent { IfNone result (has pred preds.now ≡ false) }
{
    match preds.binary_search(&pred) {
        Ok(place) => Some(place as u32),
        Err(_) => None,
    }
}

/// Sets of no places.
pub(crate) fn empty_sets(alloc: Global, count: usize) -> Result<Vec<BitSet>, AllocError>
    ensures { IfOk result (λ sets. sets.items ≡ replicate count []) }
{
    let mut sets = Vec::new(alloc);
    for _ in 0..count {
        sets.push(BitSet::new(alloc))?;
    }
    Ok(sets)
}

/// How many places there are besides this one.
pub(crate) fn others_than(places: &BitSet, place: u32) -> usize
    ensures value { result ≡ length (filter (λ j. not (nat_eq j place)) places.now) }
    ensures rising { IsStrictlySortedBy nat_cmp places.now }
{
    if places.contains(place) {
        places.len() - 1
    } else {
        places.len()
    }
}

/// The places among all predicates, which rise, of some of them.
pub(crate) fn places_of(alloc: Global, all: &[u32], preds: &[u32]) -> Result<BitSet, AllocError>
    requires rising { IsStrictlySortedBy nat_cmp all.now }
    requires among { (p : ℕ) → has p preds.now ≡ true → has p all.now ≡ true }
    ensures stand { IfOk result (λ places. (q : ℕ) → stands_in all.now places q ≡ has q preds.now) }
    ensures below { IfOk result (λ places. AreBelow (length all.now) places) }
{
    let mut places = BitSet::new(alloc);
    for pred in preds {
        note_place(&mut places, all, *pred)?;
    }
    Ok(places)
}

fn note_place(places: &mut BitSet, all: &[u32], pred: u32) -> Result<(), AllocError>
    requires rising { IsStrictlySortedBy nat_cmp all.now }
    requires among { has pred all.now ≡ true }
    ensures stand { OnOk result ((q : ℕ) → stands_in all.now places.new q ≡ (stands_in all.now places.old q || nat_eq q pred)) }
    ensures below { OnOk result (AreBelow (length all.now) places.old → AreBelow (length all.now) places.new) }
{
    match place_of(all, pred) {
        Some(place) => places.insert(place),
        None => Ok(()),
    }
}
