//! The columns of a side.

ghost use Rattle.std.specs.Prelude.{◌≡◌, ◌≤◌, map, true, IfOk};
ghost use Rattle.std.specs.List.{AllByRecursion};
ghost use Rattle.layout_standing_meaning.specs.Stored.{IsIdIn, text_of_id};
ghost use Rattle.pred_columns.specs.Refusal.{known_of};
ghost use Rattle.shredder.specs.Items.{item_of};
ghost use Rattle.layout_columns_meaning.specs.BulkColours.{AreBulkColours, AreColumnsFor};

use crate::graph::graph_of;
use crate::pairs::pairs_of;
use pred_colour::colour;
use pred_columns::{ColourPair, Columns};
use shredder::Placed;
use std::alloc::{AllocError, Global};
use term_book::TermBook;

/// The pairs of the colours of items.
fn colour_pairs(
    alloc: Global,
    placed: &[Placed],
    iris: &TermBook,
    k: u32,
) -> Result<Vec<ColourPair>, AllocError>
    requires low { 1 ≤ k }
    requires high { k ≤ 32 }
    requires preds { AllByRecursion (λ x. IsIdIn iris.now x.pred) (map item_of placed.now) }
    ensures { IfOk result (λ pairs. AreBulkColours k (text_of_id iris.now) (map item_of placed.now) (map known_of pairs.items)) }
{
    let graph = graph_of(alloc, placed)?;
    let colours = colour(alloc, &graph, k)?;
    pairs_of(alloc, colours.as_slice(), iris)
}

fn columns_of(
    alloc: Global,
    k: u32,
    hashes: u32,
    pairs: &[ColourPair],
) -> Result<Columns, AllocError>
    ensures { IfOk result (λ columns. columns ≡ record { count = k; hashes = hashes; known = map known_of pairs.now }) }
{
    match Columns::new(alloc, k, hashes, pairs) {
        Ok(columns) => Ok(columns),
        Err(_refusal) => Err(AllocError),
    }
}

fn coloured_columns(
    alloc: Global,
    placed: &[Placed],
    iris: &TermBook,
    chosen: &Columns,
    hashes: u32,
) -> Result<Columns, AllocError>
    requires preds { AllByRecursion (λ x. IsIdIn iris.now x.pred) (map item_of placed.now) }
    requires hashes { hashes ≡ chosen.now.hashes }
    ensures { IfOk result (λ columns. AreColumnsFor true chosen.now (text_of_id iris.now) (map item_of placed.now) columns) }
{
    let k = chosen.count();
    let pairs = colour_pairs(alloc, placed, iris, k)?;
    columns_of(alloc, k, hashes, pairs.as_slice())
}

/// The columns of a side for a bulk of items: the chosen ones, or, where the bulk's predicates are coloured,
/// as many columns and hashes, with the colours as known columns. The predicates are ids of the book, whose
/// texts are their IRIs, and `hashes` is the number of hashes that the chosen columns have.
pub fn columns_for(
    alloc: Global,
    placed: &[Placed],
    iris: &TermBook,
    chosen: &Columns,
    hashes: u32,
    greedy: bool,
) -> Result<Columns, AllocError>
    requires preds { AllByRecursion (λ x. IsIdIn iris.now x.pred) (map item_of placed.now) }
    requires hashes { hashes ≡ chosen.now.hashes }
    ensures { IfOk result (λ columns. AreColumnsFor greedy chosen.now (text_of_id iris.now) (map item_of placed.now) columns) }
{
    if greedy {
        coloured_columns(alloc, placed, iris, chosen, hashes)
    } else {
        chosen.copy(alloc)
    }
}
