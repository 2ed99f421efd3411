//! WHERE.

ghost use Rattle.std.specs.Prelude.{◌≡◌, IfOk};
ghost use Rattle.sql_bind_meaning.specs.Sources.{bound_where_true};
ghost use Rattle.sql_bind_meaning.specs.Selects.{bound_passed};
ghost use Rattle.sql_engine_joins.specs.Rows.{all_picked};

use crate::picked_rows::PickedRows;
use rel_cells::TableSet;
use sql_bind_meaning::BoundExpr;
use sql_engine_values::{Sources, value_is_true};
use std::alloc::{AllocError, Global};

// Those of which the condition is true.
fn where_true<'a, T: TableSet>(
    alloc: Global,
    condition: &'a BoundExpr,
    sources: &'a Sources<'a, T>,
    rows: &PickedRows,
) -> Result<PickedRows, AllocError>
    ensures width { IfOk result (λ kept. kept.width ≡ rows.now.width) }
    ensures rows { IfOk result (λ kept. all_picked sources.now kept ≡ bound_where_true condition.now (all_picked sources.now rows.now)) }
{
    let mut kept = PickedRows::new(alloc, rows.width());
    for at in 0..rows.count() {
        let row = rows.row(at);
        if value_is_true(condition, sources, row) {
            kept.push(row)?;
        }
    }
    Ok(kept)
}

/// The rows that pass WHERE, where there is one.
pub(crate) fn passed<'a, T: TableSet>(
    alloc: Global,
    condition: &'a Option<BoundExpr>,
    sources: &'a Sources<'a, T>,
    rows: PickedRows,
) -> Result<PickedRows, AllocError>
    ensures width { IfOk result (λ kept. kept.width ≡ rows.width) }
    ensures rows { IfOk result (λ kept. all_picked sources.now kept ≡ bound_passed condition.now (all_picked sources.now rows)) }
{
    match condition {
        Some(condition) => where_true(alloc, condition, sources, &rows),
        None => Ok(rows),
    }
}
