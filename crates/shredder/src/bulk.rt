//! Items, and the side that is made of them.

ghost use Rattle.std.specs.Prelude.{◌≡◌, ◌≤◌, length, map, IfOk, OnOk};
ghost use Rattle.std.specs.List.{AllByRecursion};
ghost use Rattle.bags.specs.Sort.{sort};
ghost use Rattle.layout_meaning.specs.Rows.{placed_in};
ghost use Rattle.layout_standing_meaning.specs.Stored.{IsIdIn, text_of_id};
ghost use Rattle.layout_bulk_meaning.specs.Bulk.{by_entity, placed_all, bulk_side};
ghost use Rattle.shredder.specs.Items.{item_of, placed_order};

use crate::pieces::{all_appended, placed_apart};
use pred_columns::Columns;
use primary_rows::Side;
use rdf_meaning::TermId;
use std::alloc::{AllocError, Global};
use std::cmp::Ordering;
use std::thread::Threads;
use term_book::TermBook;

/// A value of an entity under a predicate, by ids.
#[derive(Clone, Copy, Debug, PartialEq, Eq, Hash)]
pub struct Placed {
    pub entity: u32,
    pub pred: u32,
    pub value: u32,
}

fn compare(a: &Placed, b: &Placed) -> Ordering
    ensures { result ≡ placed_order a.now b.now }
{
    a.entity.cmp(&b.entity)
}

/// The items by rising entity, those of one entity in their order.
fn sorted(alloc: Global, placed: &[Placed]) -> Result<Vec<Placed>, AllocError>
    ensures { IfOk result (λ sorted. map item_of sorted.items ≡ sort by_entity (map item_of placed.now)) }
{
    let mut sorted = Vec::from_slice(alloc, placed)?;
    sorted.sort_by(|a, b| compare(a, b))?;
    Ok(sorted)
}

fn place(side: &mut Side, alloc: Global, placed: Placed, iris: &TermBook) -> Result<(), AllocError>
    requires low { 1 ≤ placed.pred }
    requires high { placed.pred ≤ length iris.now }
    ensures { OnOk result (side.new ≡ placed_in side.old (text_of_id iris.now placed.pred) (item_of placed)) }
{
    let iri = &iris.term(TermId::new(placed.pred)).text;
    match side.insert(alloc, placed.entity, placed.pred, iri, placed.value) {
        Ok(_put) => Ok(()),
        Err(_refusal) => Err(AllocError),
    }
}

/// Places the items of a run of entities.
pub(crate) fn place_all(
    alloc: Global,
    side: Side,
    placed: &[Placed],
    iris: &TermBook,
) -> Result<Side, AllocError>
    requires { AllByRecursion (λ x. IsIdIn iris.now x.pred) (map item_of placed.now) }
    ensures { IfOk result (λ after. after ≡ placed_all (text_of_id iris.now) side (map item_of placed.now)) }
{
    let mut side = side;
    for at in 0..placed.len() {
        place(&mut side, alloc, placed[at], iris)?;
    }
    Ok(side)
}

/// The side of items: they are placed entity by entity, and its lists have the ids from -1 downwards by rising
/// entity, row number and column. The predicates are ids of the book, whose texts are their IRIs. The items are
/// placed in as many runs as there are pieces, each by a thread of its own where one can be made, and
/// no piece is one piece.
pub fn shred<R: Threads + Sync>(
    rt: &R,
    alloc: Global,
    placed: &[Placed],
    iris: &TermBook,
    columns: Columns,
    pieces: u32,
) -> Result<Side, AllocError>
    requires preds { AllByRecursion (λ x. IsIdIn iris.now x.pred) (map item_of placed.now) }
    ensures { IfOk result (λ side. side ≡ bulk_side columns (text_of_id iris.now) (map item_of placed.now)) }
{
    let pieces = (pieces as usize).max(1);
    let sorted = sorted(alloc, placed)?;
    let parts = placed_apart(rt, alloc, sorted.as_slice(), iris, &columns, pieces)?;
    all_appended(alloc, columns, parts)
}
