//! The greedy colouring.

ghost use Rattle.std.specs.Prelude.{◌≡◌, ◌≤◌, ◌<◌, ◌+◌, ℕ, length, take, map, true, None, IfOk, OnOk};
ghost use Rattle.std.specs.List.Sorted.{IsStrictlySortedBy};
ghost use Rattle.std.specs.Map.{keys_of};
ghost use Rattle.pred_colour_meaning.specs.Interference.{has};
ghost use Rattle.pred_colour_meaning.specs.Colouring.{rank, column_of, is_seen, IsLeastFree, AreColours, IsColouring};
ghost use Rattle.pred_colour.specs.Given.{pair_of, pairs_of, HaveColumns};
ghost use Rattle.pred_colour.specs.GraphRows.{pred_at};

use crate::colours::{Coloured, Colours};
use crate::graph::Graph;
use crate::turns::order;
use std::alloc::{AllocError, Global};

/// The greedy colouring with k columns, 1 to 32, in the order in which colours are given: by falling number
/// of neighbours, then rising id, each predicate takes the least column that no coloured neighbour has, and
/// none where these have all.
pub fn colour(alloc: Global, graph: &Graph, k: u32) -> Result<Vec<Coloured>, AllocError>
    requires low { 1 ≤ k }
    requires high { k ≤ 32 }
    ensures { IfOk result (λ colours. IsColouring graph.now k (map pair_of colours.items)) }
{
    let order = order(alloc, graph)?;
    let colours = colours_in(alloc, graph, k, order.as_slice())?;
    Ok(colours.into_items())
}

/// The colours of predicates that take their turns in this order.
fn colours_in(alloc: Global, graph: &Graph, k: u32, order: &[u32]) -> Result<Colours, AllocError>
    requires strict { IsStrictlySortedBy (rank graph.now) order.now }
    requires among { (p : ℕ) → has p order.now ≡ true → has p (keys_of graph.now) ≡ true }
    ensures { IfOk result (λ colours. AreColours graph.now k order.now (pairs_of colours)) }
{
    let mut colours = Colours::new(alloc, k)?;
    for at in 0..order.len() {
        take_turn(&mut colours, graph, k, order, at)?;
    }
    Ok(colours)
}

/// The predicate in this place of the order takes its turn.
fn take_turn(
    colours: &mut Colours,
    graph: &Graph,
    k: u32,
    order: &[u32],
    at: usize,
) -> Result<(), AllocError>
    requires within { at < length order.now }
    requires strict { IsStrictlySortedBy (rank graph.now) order.now }
    requires among { (p : ℕ) → has p order.now ≡ true → has p (keys_of graph.now) ≡ true }
    requires columns { HaveColumns (keys_of graph.now) k colours.old }
    requires before { AreColours graph.now k (take at order.now) (pairs_of colours.old) }
    ensures columns { OnOk result (HaveColumns (keys_of graph.now) k colours.new) }
    ensures turn { OnOk result (AreColours graph.now k (take (at + 1) order.now) (pairs_of colours.new)) }
{
    let pred = order[at];
    let Some(place) = graph.place_of(pred) else {
        return Ok(());
    };
    match free_column(graph, colours, k, place) {
        Some(column) => colours.give(pred, column, place),
        None => Ok(()),
    }
}

/// The least column that no coloured neighbour of the predicate at a place has.
fn free_column(graph: &Graph, colours: &Colours, k: u32, place: u32) -> Option<u32>
    requires within { place < length (keys_of graph.now) }
    requires columns { HaveColumns (keys_of graph.now) k colours.now }
    requires uncoloured { column_of (pairs_of colours.now) (pred_at (keys_of graph.now) place) ≡ None }
    ensures { IsLeastFree (is_seen graph.now (pairs_of colours.now) (pred_at (keys_of graph.now) place)) k result }
{
    for column in 0..k {
        if !graph.has_neighbour_in(place, colours.places(column)) {
            return Some(column);
        }
    }
    None
}
