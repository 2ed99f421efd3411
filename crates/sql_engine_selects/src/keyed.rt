//! Numbers of picked rows with the cells of the rows' keys, each of which is computed once.

ghost use Rattle.std.specs.Prelude.{◌≡◌, IfOk, OnOk, map};
ghost use Rattle.bags.specs.Sort.{sort, by_items};
ghost use Rattle.sql_rows_meaning.specs.Cells.{cell_order};
ghost use Rattle.sql_bind_meaning.specs.Selects.{bound_key_cells, bound_downs};
ghost use Rattle.sql_engine_values.specs.Places.{picked};
ghost use Rattle.sql_engine_selects.specs.Numbered.{number_order};
ghost use Rattle.sql_engine_selects.specs.KeyedRows.{keyed, keyed_order, row_of};

use crate::key_order::{first_key, turned};
use crate::numbered::row_at;
use crate::shown::ShownCell;
use rel_cells::TableSet;
use sql_bind_meaning::BoundKey;
use sql_engine_joins::PickedRows;
use sql_engine_values::{Sources, order_views, value};
use std::alloc::{AllocError, Global};
use std::cmp::Ordering;
use std::marker::Model;

/// The number of a picked row and the cells of its keys.
#[derive(Drop)]
struct KeyedRow<'a> {
    keys: Vec<ShownCell<'a>>,
    row: usize,
}

impl<'a> Model for KeyedRow<'a> {
    ghost use Rattle.sql_engine_selects.specs.KeyedRows.{Keyed};

    ghost Value = { Keyed };

    ghost view = { λ k. record { keys = k.keys.items; row = k.row } };
}

fn key_cells<'a, T: TableSet>(
    alloc: Global,
    keys: &'a [BoundKey],
    sources: &'a Sources<'a, T>,
    row: &[usize],
) -> Result<Vec<ShownCell<'a>>, AllocError>
    ensures { IfOk result (λ cells. cells.items ≡ bound_key_cells keys.now (picked sources.now row.now)) }
{
    let mut cells = Vec::with_capacity(alloc, keys.len())?;
    for key in keys {
        cells.push(ShownCell {
            view: value(&key.expr, sources, row),
        })?;
    }
    Ok(cells)
}

// Each row with the cells of its keys.
fn keyed_rows<'a, T: TableSet>(
    alloc: Global,
    keys: &'a [BoundKey],
    sources: &'a Sources<'a, T>,
    rows: &PickedRows,
    order: &[usize],
) -> Result<Vec<KeyedRow<'a>>, AllocError>
    ensures { IfOk result (λ all. all.items ≡ map (keyed sources.now rows.now keys.now) order.now) }
{
    let mut all = Vec::with_capacity(alloc, order.len())?;
    for row in order {
        let keys = key_cells(alloc, keys, sources, row_at(rows, *row))?;
        all.push(KeyedRow { keys, row: *row })?;
    }
    Ok(all)
}

// By the first cells that differ.
fn order_cells(keys: &[BoundKey], a: &[ShownCell<'_>], b: &[ShownCell<'_>]) -> Ordering
    ensures { result ≡ by_items cell_order (bound_downs keys.now) a.now b.now }
{
    match a {
        [] => {
            if b.is_empty() {
                Ordering::Equal
            } else {
                Ordering::Less
            }
        }
        [x, xs @ ..] => match b {
            [] => Ordering::Greater,
            [y, ys @ ..] => {
                let (down, others) = first_key(keys);
                match turned(down, order_views(x.view, y.view)) {
                    Ordering::Equal => order_cells(others, xs, ys),
                    order => order,
                }
            }
        },
    }
}

// By the first key that differs.
fn order_keyed(keys: &[BoundKey], a: &KeyedRow<'_>, b: &KeyedRow<'_>) -> Ordering
    ensures { result ≡ keyed_order keys.now a.now b.now }
{
    order_cells(keys, a.keys.as_slice(), b.keys.as_slice())
}

fn sort_keyed(keys: &[BoundKey], rows: &mut Vec<KeyedRow<'_>>) -> Result<(), AllocError>
    ensures { OnOk result (rows.new.items ≡ sort (keyed_order keys.now) rows.old.items) }
{
    rows.sort_by(|a, b| order_keyed(keys, a, b))?;
    Ok(())
}

// The rows' numbers.
fn row_numbers(alloc: Global, rows: &[KeyedRow<'_>]) -> Result<Vec<usize>, AllocError>
    ensures { IfOk result (λ numbers. numbers.items ≡ map row_of rows.now) }
{
    let mut numbers = Vec::with_capacity(alloc, rows.len())?;
    for row in rows {
        numbers.push(row.row)?;
    }
    Ok(numbers)
}

/// The numbers of rows in the order of the keys, by their cells.
pub(crate) fn sorted_by_cells<'a, T: TableSet>(
    alloc: Global,
    keys: &'a [BoundKey],
    sources: &'a Sources<'a, T>,
    rows: &PickedRows,
    order: &[usize],
) -> Result<Vec<usize>, AllocError>
    ensures { IfOk result (λ sorted. sorted.items ≡ sort (number_order sources.now rows.now keys.now) order.now) }
{
    let mut keyed = keyed_rows(alloc, keys, sources, rows, order)?;
    sort_keyed(keys, &mut keyed)?;
    let sorted = row_numbers(alloc, &keyed)?;
    Ok(sorted)
}
