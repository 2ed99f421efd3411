//! The predicates of a bulk, and which of them interfere.

ghost use Rattle.std.specs.Prelude.{map, IfOk};
ghost use Rattle.pred_colour_meaning.specs.Interference.{IsInterference};
ghost use Rattle.shredder.specs.Items.{item_of};
ghost use Rattle.layout_columns_meaning.specs.BulkColours.{entities_of};

use crate::entities::entities_in;
use crate::sets::distinct_sets;
use pred_colour::{Graph, interference};
use shredder::Placed;
use std::alloc::{AllocError, Global};

/// The graph of the predicates of items.
pub(crate) fn graph_of(alloc: Global, placed: &[Placed]) -> Result<Graph, AllocError>
    ensures { IfOk result (λ graph. IsInterference (entities_of (map item_of placed.now)) graph) }
{
    let entities = entities_in(alloc, placed)?;
    let list = distinct_sets(alloc, &entities)?;
    interference(alloc, list.as_slice())
}
