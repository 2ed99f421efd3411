//! The order of the keys.

ghost use Rattle.std.specs.Prelude.{◌≡◌, map, OnOk};
ghost use Rattle.bags.specs.Sort.{sort, turned, first_flag, rest_flags};
ghost use Rattle.sql_bind_meaning.specs.Selects.{bound_downs, bound_key_order};
ghost use Rattle.sql_engine_values.specs.Places.{picked};
ghost use Rattle.sql_engine_selects.specs.Numbered.{number_order};

use crate::numbered::row_at;
use rel_cells::TableSet;
use sql_bind_meaning::{BoundExpr, BoundKey};
use sql_engine_joins::PickedRows;
use sql_engine_values::{Sources, order_views, value};
use std::alloc::AllocError;
use std::cmp::Ordering;

/// An order, the other way round where asked.
pub(crate) fn turned(down: bool, order: Ordering) -> Ordering
    ensures { result ≡ turned down order }
{
    if down { order.reverse() } else { order }
}

/// Whether DESC stands behind the first key, and the other keys.
pub(crate) fn first_key(keys: &[BoundKey]) -> (bool, &[BoundKey])
    ensures first { result.0 ≡ first_flag (bound_downs keys.now) }
    ensures rest { bound_downs result.1.now ≡ rest_flags (bound_downs keys.now) }
{
    match keys {
        [key, others @ ..] => (key.down, others),
        [] => (false, keys),
    }
}

/// How many keys a row may have whose cells are kept although they are columns: a kept cell takes 32 bytes, and is compared some
/// four times as fast as one that is read again.
const KEPT_COLUMNS: usize = 2;

/// Whether the cells of the keys are read again at each step, and not kept beside the rows: where each is a column and they are many.
pub(crate) fn are_read_again(keys: &[BoundKey]) -> bool {
    (keys.is_empty() || keys.len() > KEPT_COLUMNS)
        && keys
            .iter()
            .all(|key| matches!(key.expr, BoundExpr::Cell(..)))
}

// Two rows, by the first key that differs.
fn order_rows<'a, T: TableSet>(
    keys: &'a [BoundKey],
    sources: &'a Sources<'a, T>,
    a: &[usize],
    b: &[usize],
) -> Ordering
    ensures { result ≡ bound_key_order keys.now (picked sources.now a.now) (picked sources.now b.now) }
{
    for key in keys {
        let x = value(&key.expr, sources, a);
        let y = value(&key.expr, sources, b);
        let order = turned(key.down, order_views(x, y));
        if order != Ordering::Equal {
            return order;
        }
    }
    Ordering::Equal
}

/// Puts the numbers of rows in the order of the keys, whose cells are read at each step.
pub(crate) fn sort_by_places<'a, T: TableSet>(
    keys: &'a [BoundKey],
    sources: &'a Sources<'a, T>,
    rows: &PickedRows,
    order: &mut Vec<usize>,
) -> Result<(), AllocError>
    ensures { OnOk result (order.new.items ≡ sort (number_order sources.now rows.now keys.now) order.old.items) }
{
    order.sort_by(|a, b| order_rows(keys, sources, row_at(rows, *a), row_at(rows, *b)))?;
    Ok(())
}
