//! The graph of predicates that interfere.

ghost use Rattle.std.specs.Prelude.{◌≡◌, ◌<◌, length, map, false, IfOk, IfSome, IfNone};
ghost use Rattle.std.specs.List.{list_any};
ghost use Rattle.std.specs.List.Sorted.{IsStrictlySortedBy};
ghost use Rattle.std.specs.Ordering.{nat_cmp};
ghost use Rattle.std.specs.Map.{keys_of};
ghost use Rattle.pred_colour_meaning.specs.Interference.{has, neighbours_of, IsInterference};
ghost use Rattle.pred_colour.specs.Entities.{preds_of};
ghost use Rattle.pred_colour.specs.GraphRows.{pred_at, row_at, stands_in, others, graph_of, AreBelow, AreRows};
ghost use Rattle.pred_colour.specs.Turns.{turn_of};

use crate::places::{others_than, place_of};
use crate::predicates::predicates;
use crate::rows::joined;
use crate::turns::Turn;
use bit_sets::BitSet;
use std::alloc::{AllocError, Global};
use std::marker::Model;

/// The distinct predicates of one entity.
#[derive(Drop)]
pub struct EntityPreds {
    pub preds: Vec<u32>,
}

/// Distinct predicates, and which of them occur together: contracts see each predicate, by rising id, with
/// its neighbours.
#[derive(Drop)]
pub struct Graph {
    /// The predicates, rising.
    preds: Vec<u32>,
    /// For each of them the places of those that it occurs with, and maybe its own.
    rows: Vec<BitSet>,
}

impl Model for Graph {
    ghost use Rattle.pred_colour_meaning.specs.Interference.{Graph as GraphOf};
    ghost use Rattle.pred_colour.specs.GraphRows.{graph_of, AreRows};

    ghost Value = { GraphOf };

    ghost view = { λ g. graph_of g.preds.items g.rows.items };

    ghost invariant = { λ g. AreRows g.preds.items g.rows.items };
}

impl Graph {
    /// The place of a predicate among those of the graph, by rising id.
    pub(crate) fn place_of(&self, pred: u32) -> Option<u32>
        ensures within { IfSome result (λ place. place < length (keys_of self.now)) }
        ensures found { IfSome result (λ place. pred_at (keys_of self.now) place ≡ pred) }
        ensures absent { IfNone result (has pred (keys_of self.now) ≡ false) }
    {
        place_of(self.preds.as_slice(), pred)
    }

    /// Whether a neighbour of the predicate at a place stands at one of the places.
    pub(crate) fn has_neighbour_in(&self, place: u32, places: &BitSet) -> bool
        requires within { place < length (keys_of self.now) }
        requires below { AreBelow (length (keys_of self.now)) places.now }
        requires apart { has place places.now ≡ false }
        ensures { result ≡ list_any (stands_in (keys_of self.now) places.now) (neighbours_of self.now (pred_at (keys_of self.now) place)) }
    {
        // The row may have the own place too: it is apart from the places.
        self.rows[place as usize].meets(places)
    }

    /// The predicates with their numbers of neighbours, by rising id.
    pub(crate) fn turns(&self, alloc: Global) -> Result<Vec<Turn>, AllocError>
        ensures turns { IfOk result (λ turns. turns.items ≡ map turn_of self.now) }
        ensures rising { IsStrictlySortedBy nat_cmp (keys_of self.now) }
    {
        turns(alloc, self.preds.as_slice(), self.rows.as_slice())
    }
}

/// The predicates of entities; two are neighbours where some entity has both.
pub fn interference(alloc: Global, entities: &[EntityPreds]) -> Result<Graph, AllocError>
    ensures { IfOk result (λ graph. IsInterference (map preds_of entities.now) graph) }
{
    let preds = predicates(alloc, entities)?;
    let rows = joined(alloc, preds.as_slice(), entities)?;
    Ok(Graph { preds, rows })
}

fn turns(alloc: Global, preds: &[u32], rows: &[BitSet]) -> Result<Vec<Turn>, AllocError>
    requires { AreRows preds.now rows.now }
    ensures { IfOk result (λ turns. turns.items ≡ map turn_of (graph_of preds.now rows.now)) }
{
    let mut turns = Vec::new(alloc);
    for place in 0..preds.len() {
        turns.push(turn_at(preds, rows, place))?;
    }
    Ok(turns)
}

/// The turn of the predicate at a place.
fn turn_at(preds: &[u32], rows: &[BitSet], place: usize) -> Turn
    requires rows { AreRows preds.now rows.now }
    requires within { place < length preds.now }
    ensures { result ≡ turn_of (pred_at preds.now place, others preds.now (row_at rows.now place) (pred_at preds.now place)) }
{
    Turn {
        pred: preds[place],
        degree: others_than(&rows[place], place as u32),
    }
}
