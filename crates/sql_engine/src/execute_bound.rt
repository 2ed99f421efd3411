//! The rows of a bound script.

ghost use Rattle.std.specs.Prelude.{◌≡◌, ◌≤◌, IfOk};
ghost use Rattle.sql_meaning.specs.declared.script.Script.{Script};
ghost use Rattle.sql_rows_meaning.specs.Scopes.{schemas_in};
ghost use Rattle.sql_rows_meaning.specs.Rows.{script_rows};
ghost use Rattle.sql_bind_meaning.specs.Rows.{bound_rows};
ghost use Rattle.sql_bind_forms.specs.Forms.{HasRowsOf};

use crate::row_lists::row_list;
use rel_cells::{RowList, TableSet};
use sql_bind_forms::Bound;
use std::alloc::{AllocError, Global};
use std::thread::Threads;

/// The rows of a bound script over tables that have the schemas which were bound, in the same order. The rows stand in
/// their order, under the schema of the script's columns; they are the same for each number of pieces, of which there are
/// 1 to 64.
pub fn execute<T: TableSet + Sync, R: Threads + Sync>(
    rt: &R,
    alloc: Global,
    bound: &Bound,
    tables: &T,
    pieces: u32,
) -> Result<RowList, AllocError>
    requires tables { schemas_in (T.named_tables tables.now) ≡ bound.now.tables }
    requires pieces { (1 ≤ pieces) × (pieces ≤ 64) }
    ensures rows { IfOk result (λ list. list ≡ record { schema = bound.now.columns; rows = bound_rows bound.now.placed (T.named_tables tables.now) }) }
    ensures script { IfOk result (λ list. (s : Script) → HasRowsOf s bound.now → list ≡ record { schema = bound.now.columns; rows = script_rows s (T.named_tables tables.now) }) }
{
    // With the count of the tables comes that their rows have the kinds of their columns.
    let _ = tables.tables();
    row_list(
        rt,
        alloc,
        bound.schema(),
        bound.placed(),
        tables,
        pieces as usize,
    )
}
