//! Running a script over its tables.

ghost use Rattle.std.specs.Prelude.{◌≡◌, ◌≤◌, IfOk, IfErr, OnOk, Ok, Err, MatchOption, IsTrue};
ghost use Rattle.sql_meaning.specs.Scripts.{script_form};
ghost use Rattle.sql_bind.specs.Refusals.{fault_of};
ghost use Rattle.run_script.specs.Rows.{AreRowsOf};
ghost use Rattle.run_files_meaning.specs.Refusal.{RefusedAs};
ghost use Rattle.run_exec_meaning.specs.Running.{fault_in, judged_script, running, ScriptText};

use crate::parts::Parts;
use answer_text::write_cells;
use rel_cells::RowList;
use run_meaning::{SqlFault, Status};
use run_script::rows_of;
use sql_bind::BindRefusal;
use std::alloc::Global;
use std::thread::Threads;

// The status of a script that doesn't bind.
fn status_of(refusal: BindRefusal) -> Status
    ensures { MatchOption (fault_of refusal) (result ≡ Status.NoMemory) (λ f. result ≡ Status.BadSql (fault_in f.kind f.select)) }
{
    let why = match refusal {
        BindRefusal::NoMemory => return Status::NoMemory,
        BindRefusal::NoTable { select } => SqlFault::NoTable { select },
        BindRefusal::NoColumn { select } => SqlFault::NoColumn { select },
        BindRefusal::Twice { select } => SqlFault::Twice { select },
        BindRefusal::KindClash { select } => SqlFault::KindClash { select },
        BindRefusal::NotTruth { select } => SqlFault::NotTruth { select },
    };
    Status::BadSql { why }
}

// The rows of the script, or the status of its first fault.
#[tactic(auto, using(crate::proofs::Runs::bind_refused))]
fn rows_or_status<R: Threads + Sync>(
    rt: &R,
    alloc: Global,
    parts: &Parts,
    pieces: u32,
) -> Result<RowList, Status>
    requires form { IsTrue (script_form parts.now.script) }
    requires some { 1 ≤ pieces }
    requires few { pieces ≤ 64 }
    ensures rows { IfOk result (AreRowsOf parts.now.script parts.now.tables) }
    ensures err { IfErr result (λ status. RefusedAs status (λ s. judged_script parts.now.tables parts.now.script ≡ Err s)) }
{
    match rows_of(rt, alloc, &parts.script, &parts.tables, pieces) {
        Ok(rows) => Ok(rows),
        Err(refusal) => Err(status_of(refusal)),
    }
}

/// The cells of the script's rows, or its first fault.
#[tactic(auto, using(crate::proofs::Runs::rows_judged, crate::proofs::Runs::cells_fit))]
pub(crate) fn run_parts<R: Threads + Sync>(
    rt: &R,
    alloc: Global,
    parts: &Parts,
    pieces: u32,
) -> Result<Vec<u8>, Status>
    requires form { IsTrue (script_form parts.now.script) }
    requires some { 1 ≤ pieces }
    requires few { pieces ≤ 64 }
    ensures judged { OnOk result (judged_script parts.now.tables parts.now.script ≡ Ok (running parts.now.tables parts.now.script)) }
    ensures ok { IfOk result (λ cells. ScriptText (running parts.now.tables parts.now.script) cells.items) }
    ensures err { IfErr result (λ status. RefusedAs status (λ s. judged_script parts.now.tables parts.now.script ≡ Err s)) }
{
    let rows = rows_or_status(rt, alloc, parts, pieces)?;
    let mut cells = Vec::new(alloc);
    write_cells(&rows, &mut cells)?;
    Ok(cells)
}
