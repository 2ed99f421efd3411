//! The rows of a script whose names are places.

ghost use Rattle.std.specs.Prelude.{◌≡◌, ◌≤◌, IfOk, OnOk};
ghost use Rattle.sql_bind_meaning.specs.Rows.{table_relations, bound_body_rows, after_bound_steps, bound_rows};

use rel_cells::{Row, TableSet};
use sql_bind_meaning::{BoundBody, BoundScript};
use sql_engine_joins::keep_indexes;
use sql_engine_selects::select_rows;
use sql_engine_values::Relations;
use std::alloc::{AllocError, Global};
use std::thread::Threads;

// The rows of a body's SELECTs, one after another. The indexes that they want are kept for those that follow.
fn body_rows<T: TableSet + Sync, R: Threads + Sync>(
    rt: &R,
    alloc: Global,
    body: &BoundBody,
    relations: &mut Relations<'_, T>,
    pieces: usize,
) -> Result<Vec<Row>, AllocError>
    requires { 1 ≤ pieces }
    ensures rows { IfOk result (λ rows. rows.items ≡ bound_body_rows relations.old body.now) }
    ensures kept { OnOk result (relations.new ≡ relations.old) }
{
    let mut rows = Vec::new(alloc);
    for core in body.cores.as_slice() {
        keep_indexes(alloc, core, relations)?;
        let mut more = select_rows(rt, alloc, core, relations, pieces)?;
        rows.append(&mut more)?;
    }
    Ok(rows)
}

// The tables, and behind them the rows of each step, which are computed once.
fn after_steps<'a, T: TableSet + Sync, R: Threads + Sync>(
    rt: &R,
    alloc: Global,
    steps: &[BoundBody],
    tables: &'a T,
    pieces: usize,
) -> Result<Relations<'a, T>, AllocError>
    requires { 1 ≤ pieces }
    ensures { IfOk result (λ relations. relations ≡ after_bound_steps steps.now (table_relations (T.named_tables tables.now))) }
{
    let mut relations = Relations::new(alloc, tables);
    for step in steps {
        let rows = body_rows(rt, alloc, step, &mut relations, pieces)?;
        relations.add_step(rows)?;
    }
    Ok(relations)
}

/// The rows of a script over a set of tables, in their order: the same for each number of pieces.
pub fn bound_rows_of<T: TableSet + Sync, R: Threads + Sync>(
    rt: &R,
    alloc: Global,
    script: &BoundScript,
    tables: &T,
    pieces: usize,
) -> Result<Vec<Row>, AllocError>
    requires { 1 ≤ pieces }
    ensures { IfOk result (λ rows. rows.items ≡ bound_rows script.now (T.named_tables tables.now)) }
{
    let mut relations = after_steps(rt, alloc, script.steps.as_slice(), tables, pieces)?;
    let rows = body_rows(rt, alloc, &script.last, &mut relations, pieces)?;
    Ok(rows)
}
