//! The colours that were given.

ghost use Rattle.std.specs.Prelude.{◌≡◌, ◌<◌, ◌∷◌, ◌++◌, ◌&&◌, ◌||◌, [], ℕ, nat_eq, length, replicate, map, IfOk, OnOk};
ghost use Rattle.pred_colour_meaning.specs.Interference.{has};
ghost use Rattle.pred_colour.specs.Given.{pair_of, pairs_of};
ghost use Rattle.pred_colour.specs.GraphRows.{row_at};

use crate::places::empty_sets;
use bit_sets::BitSet;
use std::alloc::{AllocError, Global};

/// A predicate and its column, counted from 0.
#[derive(Clone, Copy, Debug, PartialEq, Eq)]
pub struct Coloured {
    pub pred: u32,
    pub column: u32,
}

/// Predicates with their columns.
#[derive(Drop)]
pub(crate) struct Colours {
    /// In the order in which they were given.
    given: Vec<Coloured>,
    /// For each column the places of the predicates that have it.
    places: Vec<BitSet>,
}

impl Colours {
    /// No colours yet, of k columns.
    pub(crate) fn new(alloc: Global, k: u32) -> Result<Colours, AllocError>
        ensures none { IfOk result (λ colours. pairs_of colours ≡ []) }
        ensures places { IfOk result (λ colours. colours.places.items ≡ replicate k []) }
    {
        let places = empty_sets(alloc, k as usize)?;
        Ok(Colours {
            given: Vec::new(alloc),
            places,
        })
    }

    /// The places of the predicates that have a column.
    pub(crate) fn places(&self, column: u32) -> &BitSet
        requires { column < length self.now.places.items }
        ensures { result.now ≡ row_at self.now.places.items column }
    {
        &self.places[column as usize]
    }

    /// Gives a column to the predicate at a place.
    pub(crate) fn give(&mut self, pred: u32, column: u32, place: u32) -> Result<(), AllocError>
        requires { column < length self.old.places.items }
        ensures given { OnOk result (pairs_of self.new ≡ pairs_of self.old ++ (pred, column) ∷ []) }
        ensures count { OnOk result (length self.new.places.items ≡ length self.old.places.items) }
        ensures places { OnOk result ((c n : ℕ) → has n (row_at self.new.places.items c) ≡ (has n (row_at self.old.places.items c) || (nat_eq c column && nat_eq n place))) }
    {
        self.places[column as usize].insert(place)?;
        self.given.push(Coloured { pred, column })?;
        Ok(())
    }

    pub(crate) fn into_items(self) -> Vec<Coloured>
        ensures { map pair_of result.items ≡ pairs_of self }
    {
        self.given
    }
}
