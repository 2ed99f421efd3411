//! The rows of a script over tables.

ghost use Rattle.std.specs.Prelude.{◌≡◌, ◌≤◌, IfOk, IfErr, Some, Err, IsTrue};
ghost use Rattle.sql_meaning.specs.Scripts.{script_form};
ghost use Rattle.sql_rows_meaning.specs.declared.fault.Fault.{Fault};
ghost use Rattle.sql_rows_meaning.specs.Binding.{check_script};
ghost use Rattle.sql_rows_meaning.specs.Scopes.{schemas_in};
ghost use Rattle.sql_bind.specs.Refusals.{fault_of};
ghost use Rattle.sql_bind.specs.Bound.{IsBoundFrom};
ghost use Rattle.run_script.specs.Rows.{AreRowsOf};

use crate::schemas::schemas_of;
use rel_cells::{RowList, TableSet};
use sql_bind::{BindRefusal, Bound, bind};
use sql_engine::execute;
use sql_meaning::Script;
use std::alloc::Global;
use std::thread::Threads;

// The script, bound over the schemas of the tables.
#[tactic(auto, using(crate::proofs::SchemaSteps::names_differ, crate::proofs::Bound::bound_over, crate::proofs::Bound::refused_over, sql_bind::specs::Bound::form_has_items))]
fn bound_over<T: TableSet>(alloc: Global, script: &Script, tables: &T) -> Result<Bound, BindRefusal>
    requires { IsTrue (script_form script.now) }
    ensures bound { IfOk result (IsBoundFrom script.now (schemas_in (T.named_tables tables.now))) }
    ensures refused { IfErr result (λ e. (f : Fault) → fault_of e ≡ Some f → check_script script.now (schemas_in (T.named_tables tables.now)) ≡ Err f) }
{
    // With the count of the tables comes that their names differ.
    let _ = tables.tables();
    let schemas = schemas_of(alloc, tables)?;
    bind(alloc, script, &schemas)
}

/// The rows of a script over tables, in their order and under the script's columns, or the script's first fault. The
/// rows are the same for each number of pieces, of which there are 1 to 64.
#[tactic(auto, using(crate::proofs::Bound::same_tables, crate::proofs::Bound::rows_are))]
pub fn rows_of<T: TableSet + Sync, R: Threads + Sync>(
    rt: &R,
    alloc: Global,
    script: &Script,
    tables: &T,
    pieces: u32,
) -> Result<RowList, BindRefusal>
    requires form { IsTrue (script_form script.now) }
    requires some { 1 ≤ pieces }
    requires few { pieces ≤ 64 }
    ensures rows { IfOk result (AreRowsOf script.now (T.named_tables tables.now)) }
    ensures refused { IfErr result (λ e. (f : Fault) → fault_of e ≡ Some f → check_script script.now (schemas_in (T.named_tables tables.now)) ≡ Err f) }
{
    let bound = bound_over(alloc, script, tables)?;
    let rows = execute(rt, alloc, &bound, tables, pieces)?;
    Ok(rows)
}
