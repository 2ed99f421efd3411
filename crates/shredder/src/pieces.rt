//! Runs of sorted items, placed apart.

ghost use Rattle.std.specs.Prelude.{◌≡◌, ◌<◌, ◌≤◌, ◌+◌, length, map, IfOk, Some};
ghost use Rattle.std.specs.List.{AllByRecursion};
ghost use Rattle.layout_standing_meaning.specs.Stored.{IsIdIn, text_of_id};
ghost use Rattle.layout_bulk_meaning.specs.Bulk.{empty_side};
ghost use Rattle.layout_run_laws.specs.Runs.{run_side};
ghost use Rattle.layout_run_laws.specs.Cuts.{cut_from, share, run_at};
ghost use Rattle.shredder.specs.Items.{item_of};
ghost use Rattle.shredder.specs.Parts.{all_appended, CanAppend, EachIsRun};

use crate::bulk::{Placed, place_all};
use pred_columns::Columns;
use primary_rows::Side;
use std::alloc::{AllocError, Global};
use std::thread;
use std::thread::Threads;
use term_book::TermBook;
use value_lists::Lists;

/// The first place, from here on, at which the entity isn't that of the item before.
fn cut(sorted: &[Placed], from: usize) -> usize
    requires { from ≤ length sorted.now }
    ensures cut { result ≡ cut_from from (map item_of sorted.now) }
    ensures within { result ≤ length sorted.now }
{
    if from == 0 {
        return 0;
    }
    let entity = sorted[from - 1].entity;
    for at in from..sorted.len() {
        if sorted[at].entity != entity {
            return at;
        }
    }
    sorted.len()
}

/// Where the run with this number would begin if all were of equal length, but for one item.
fn share(len: usize, pieces: usize, at: usize) -> usize
    requires some { 1 ≤ pieces }
    requires at { at ≤ pieces }
    ensures share { result ≡ share len pieces at }
    ensures within { result ≤ len }
{
    len / pieces * at + at.min(len % pieces)
}

/// Where the run with this number begins, and where it ends.
fn run_bounds(sorted: &[Placed], pieces: usize, at: usize) -> (usize, usize)
    requires { at < pieces }
    ensures rise { result.0 ≤ result.1 }
    ensures within { result.1 ≤ length sorted.now }
    ensures from { result.0 ≡ cut_from (share (length sorted.now) pieces at) (map item_of sorted.now) }
    ensures to { result.1 ≡ cut_from (share (length sorted.now) pieces (at + 1)) (map item_of sorted.now) }
{
    let from = cut(sorted, share(sorted.len(), pieces, at));
    let to = cut(sorted, share(sorted.len(), pieces, at + 1));
    (from, to)
}

/// The run with this number.
fn run(sorted: &[Placed], pieces: usize, at: usize) -> &[Placed]
    requires { at < pieces }
    ensures { map item_of result.now ≡ run_at pieces (map item_of sorted.now) at }
{
    let (from, to) = run_bounds(sorted, pieces, at);
    &sorted[from..to]
}

/// The side of the run with this number by itself.
fn place_run(
    alloc: Global,
    sorted: &[Placed],
    iris: &TermBook,
    columns: &Columns,
    pieces: usize,
    at: usize,
) -> Result<Side, AllocError>
    requires at { at < pieces }
    requires preds { AllByRecursion (λ x. IsIdIn iris.now x.pred) (map item_of sorted.now) }
    ensures { IfOk result (λ side. side ≡ run_side columns.now (text_of_id iris.now) (run_at pieces (map item_of sorted.now) at)) }
{
    let side = Side::new(alloc, columns.copy(alloc)?, Lists::starting(alloc, -1));
    place_all(alloc, side, run(sorted, pieces, at), iris)
}

/// The side of each run by itself, or its refusal.
pub(crate) fn placed_apart<R: Threads + Sync>(
    rt: &R,
    alloc: Global,
    sorted: &[Placed],
    iris: &TermBook,
    columns: &Columns,
    pieces: usize,
) -> Result<Vec<Result<Side, AllocError>>, AllocError>
    requires { AllByRecursion (λ x. IsIdIn iris.now x.pred) (map item_of sorted.now) }
    ensures len { IfOk result (λ parts. length parts.items ≡ pieces) }
    ensures each { IfOk result (λ parts. EachIsRun columns.now (text_of_id iris.now) pieces (map item_of sorted.now) parts.items) }
{
    thread::map_indices(
        rt,
        alloc,
        pieces,
        &|at| place_run(alloc, sorted, iris, columns, pieces, at),
    )
}

/// The sides, each behind those before it.
pub(crate) fn all_appended(
    alloc: Global,
    columns: Columns,
    parts: Vec<Result<Side, AllocError>>,
) -> Result<Side, AllocError>
    requires { CanAppend (empty_side columns) parts.items }
    ensures { IfOk result (λ side. all_appended (empty_side columns) parts.items ≡ Some side) }
{
    let mut side = Side::new(alloc, columns, Lists::starting(alloc, -1));
    for part in parts {
        side = side.append(alloc, part?)?;
    }
    Ok(side)
}
