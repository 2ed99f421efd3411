//! The order in which predicates take their turns.

ghost use Rattle.std.specs.Prelude.{◌≡◌, ◌<◌, ℕ, map, IfOk, OnOk};
ghost use Rattle.std.specs.List.Sorted.{IsStrictlySortedBy};
ghost use Rattle.std.specs.Map.{keys_of};
ghost use Rattle.bags.specs.Sort.{sort};
ghost use Rattle.pred_colour_meaning.specs.Interference.{has};
ghost use Rattle.pred_colour_meaning.specs.Colouring.{rank};
ghost use Rattle.pred_colour.specs.Turns.{turn_order, pred_of};

use crate::graph::Graph;
use std::alloc::{AllocError, Global};
use std::cmp::Ordering;

/// A predicate and how many neighbours it has.
#[derive(Clone, Copy)]
pub(crate) struct Turn {
    pub(crate) pred: u32,
    pub(crate) degree: usize,
}

/// By falling number of neighbours, then by rising id.
fn by_turn(a: &Turn, b: &Turn) -> Ordering
    ensures { result ≡ turn_order a.now b.now }
{
    b.degree.cmp(&a.degree).then(a.pred.cmp(&b.pred))
}

fn sort_turns(turns: &mut Vec<Turn>) -> Result<(), AllocError>
    ensures { OnOk result (turns.new.items ≡ sort turn_order turns.old.items) }
{
    turns.sort_by(|a, b| by_turn(a, b))?;
    Ok(())
}

fn preds(alloc: Global, turns: &[Turn]) -> Result<Vec<u32>, AllocError>
    ensures { IfOk result (λ preds. preds.items ≡ map pred_of turns.now) }
{
    turns.iter().map(|turn| turn.pred).collect(alloc)
}

/// The predicates in the order of their turns.
pub(crate) fn order(alloc: Global, graph: &Graph) -> Result<Vec<u32>, AllocError>
    ensures strict { IfOk result (λ order. IsStrictlySortedBy (rank graph.now) order.items) }
    ensures all { IfOk result (λ order. (p : ℕ) → has p order.items ≡ has p (keys_of graph.now)) }
{
    let mut turns = graph.turns(alloc)?;
    sort_turns(&mut turns)?;
    let preds = preds(alloc, turns.as_slice())?;
    Ok(preds)
}
