//! The answer that a compiled script gives.

ghost use Rattle.std.specs.Prelude.{◌≡◌, ◌≤◌, IfOk, None, Some, Ok, IsTrue, is_some, true};
ghost use Rattle.sql_meaning.specs.Scripts.{is_writable};
ghost use Rattle.sql_rows_meaning.specs.Binding.{check_script};
ghost use Rattle.sql_rows_meaning.specs.Scopes.{schemas_in};
ghost use Rattle.sql_rows_meaning.specs.Rows.{script_rows};
ghost use Rattle.sql_gen_answer_meaning.specs.Columns.{answer_columns};
ghost use Rattle.sql_gen_answer_meaning.specs.Decode.{decode};
ghost use Rattle.sql_bind.specs.Refusals.{fault_of};
ghost use Rattle.run_script.specs.Rows.{AreRowsOf};

use crate::rows::rows_of;
use answer_text::{Answers, decode};
use rel_cells::{RowList, TableSet};
use sql_bind::BindRefusal;
use sql_meaning::Script;
use sql_text::{SqlRefusal, read_sql, write_sql};
use std::alloc::{AllocError, Global};
use std::thread::Threads;

// The script, written as text and read again.
#[tactic(auto, using(crate::proofs::Again::read_same, crate::proofs::Again::never_deep, crate::proofs::Again::never_broken))]
fn written_again(alloc: Global, script: &Script) -> Result<Script, AllocError>
    requires { IsTrue (is_writable script.now) }
    ensures { IfOk result (λ again. again ≡ script.now) }
{
    let mut text = Vec::new(alloc);
    write_sql(script, &mut text)?;
    match read_sql(alloc, text.as_slice()) {
        Ok(again) => Ok(again),
        Err(SqlRefusal::NoMemory) => Err(AllocError),
        Err(SqlRefusal::Deep | SqlRefusal::Syntax { .. }) => unreachable!(),
    }
}

// A refusal that names no fault is want of memory.
fn want_of_memory(_refusal: BindRefusal) -> AllocError
    requires { fault_of _refusal ≡ None }
{
    AllocError
}

// The rows of a script that binds.
#[tactic(auto, using(crate::proofs::Again::no_fault, crate::proofs::Again::writable_form))]
fn bound_rows<T: TableSet + Sync, R: Threads + Sync>(
    rt: &R,
    alloc: Global,
    script: &Script,
    tables: &T,
    shown: u32,
    pieces: u32,
) -> Result<RowList, AllocError>
    requires writable { IsTrue (is_writable script.now) }
    requires binds { check_script script.now (schemas_in (T.named_tables tables.now)) ≡ Ok (answer_columns shown) }
    requires some { 1 ≤ pieces }
    requires few { pieces ≤ 64 }
    ensures { IfOk result (AreRowsOf script.now (T.named_tables tables.now)) }
{
    match rows_of(rt, alloc, script, tables, pieces) {
        Ok(rows) => Ok(rows),
        Err(refusal) => Err(want_of_memory(refusal)),
    }
}

/// The answer with so many shown variables that a compiled script gives over tables. The script is written as text, read
/// again, bound and run, and its rows are read as the answer, which is the same for each number of pieces, of which there are
/// 1 to 64.
///
/// # Errors
///
/// Want of memory.
#[tactic(auto, using(crate::proofs::Again::own_columns, crate::proofs::Again::own_rows, crate::proofs::Again::own_answer, crate::proofs::Again::same_bound))]
pub fn answers_of<T: TableSet + Sync, R: Threads + Sync>(
    rt: &R,
    alloc: Global,
    script: &Script,
    tables: &T,
    shown: u32,
    pieces: u32,
) -> Result<Answers, AllocError>
    requires writable { IsTrue (is_writable script.now) }
    requires binds { check_script script.now (schemas_in (T.named_tables tables.now)) ≡ Ok (answer_columns shown) }
    requires decodes { is_some (decode (script_rows script.now (T.named_tables tables.now))) ≡ true }
    requires some { 1 ≤ pieces }
    requires few { pieces ≤ 64 }
    ensures { IfOk result (λ answers. decode (script_rows script.now (T.named_tables tables.now)) ≡ Some answers) }
{
    let again = written_again(alloc, script)?;
    let rows = bound_rows(rt, alloc, &again, tables, shown, pieces)?;
    decode(alloc, &rows, shown)
}
