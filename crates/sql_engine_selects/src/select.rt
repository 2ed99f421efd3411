//! The rows of a SELECT.

ghost use Rattle.std.specs.Prelude.{◌≡◌, ◌≤◌, IfOk, length};
ghost use Rattle.std.specs.List.{range_with_len};
ghost use Rattle.bags.specs.Sort.{sort};
ghost use Rattle.sql_bind_meaning.specs.Selects.{bound_select_rows};
ghost use Rattle.sql_engine_values.specs.Places.{source_numbers};
ghost use Rattle.sql_engine_selects.specs.Numbered.{number_order};

use crate::key_order::{are_read_again, sort_by_places};
use crate::keyed::sorted_by_cells;
use crate::numbered::{cut, first_numbers};
use crate::shown::{copied_rows, copy_rows, shown_rows};
use list_steps::first_items;
use rel_cells::{Row, TableSet};
use sql_bind_meaning::{BoundCore, BoundKey};
use sql_engine_joins::{PickedRows, passed_rows};
use sql_engine_values::{Relations, Sources};
use std::alloc::{AllocError, Global};
use std::thread::Threads;

// The numbers of the picked rows, in the order of the keys.
fn sorted_numbers<'a, T: TableSet>(
    alloc: Global,
    keys: &'a [BoundKey],
    sources: &'a Sources<'a, T>,
    rows: &PickedRows,
) -> Result<Vec<usize>, AllocError>
    ensures { IfOk result (λ order. order.items ≡ sort (number_order sources.now rows.now keys.now) (range_with_len 0 (length rows.now.rows))) }
{
    let mut order = first_numbers(alloc, rows.count())?;
    if are_read_again(keys) {
        sort_by_places(keys, sources, rows, &mut order)?;
        Ok(order)
    } else {
        sorted_by_cells(alloc, keys, sources, rows, &order)
    }
}

// The rows over these sources. Where no row is told from another, OFFSET and LIMIT come before the items.
fn rows_over<'a, T: TableSet + Sync, R: Threads + Sync>(
    rt: &R,
    alloc: Global,
    core: &'a BoundCore,
    sources: &'a Sources<'a, T>,
    pieces: usize,
) -> Result<Vec<Row>, AllocError>
    requires pieces { 1 ≤ pieces }
    requires sources { sources.now.numbers ≡ source_numbers core.now }
    ensures { IfOk result (λ rows. rows.items ≡ bound_select_rows sources.now.relations core.now) }
{
    let rows = passed_rows(rt, alloc, core, sources, pieces)?;
    let order = sorted_numbers(alloc, core.keys.as_slice(), sources, &rows)?;
    if core.distinct {
        let shown = shown_rows(alloc, core.items.as_slice(), sources, &rows, &order)?;
        let firsts = first_items(alloc, shown)?;
        let copied = copy_rows(alloc, cut(&firsts, core.skip, core.most))?;
        Ok(copied)
    } else {
        let order = cut(&order, core.skip, core.most);
        let copied = copied_rows(alloc, core.items.as_slice(), sources, &rows, order)?;
        Ok(copied)
    }
}

/// The rows of a SELECT over these relations, in their order: the same for each number of pieces into which the rows of FROM are cut.
pub fn select_rows<T: TableSet + Sync, R: Threads + Sync>(
    rt: &R,
    alloc: Global,
    core: &BoundCore,
    relations: &Relations<'_, T>,
    pieces: usize,
) -> Result<Vec<Row>, AllocError>
    requires { 1 ≤ pieces }
    ensures { IfOk result (λ rows. rows.items ≡ bound_select_rows relations.now core.now) }
{
    let sources = Sources::of(alloc, core, relations)?;
    let rows = rows_over(rt, alloc, core, &sources, pieces)?;
    Ok(rows)
}
