//! The rows of a script under the schema of its columns.

ghost use Rattle.std.specs.Prelude.{◌≡◌, ◌≤◌, IfOk, IsTrue};
ghost use Rattle.table_meaning.specs.Tables.{are_rows};
ghost use Rattle.sql_bind_meaning.specs.Rows.{bound_rows};

use crate::rows::bound_rows_of;
use rel_cells::{RowList, Schema, TableSet};
use sql_bind_meaning::BoundScript;
use std::alloc::{AllocError, Global};
use std::thread::Threads;

/// The rows of a script over a set of tables, in their order, under a schema whose kinds they have.
pub fn row_list<T: TableSet + Sync, R: Threads + Sync>(
    rt: &R,
    alloc: Global,
    schema: &Schema,
    script: &BoundScript,
    tables: &T,
    pieces: usize,
) -> Result<RowList, AllocError>
    requires kinds { IsTrue (are_rows schema.now (bound_rows script.now (T.named_tables tables.now))) }
    requires pieces { 1 ≤ pieces }
    ensures { IfOk result (λ list. list ≡ record { schema = schema.now; rows = bound_rows script.now (T.named_tables tables.now) }) }
{
    let _ = schema.columns();
    let schema = schema.copy(alloc)?;
    let rows = bound_rows_of(rt, alloc, script, tables, pieces)?;
    Ok(RowList { schema, rows })
}
