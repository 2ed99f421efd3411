//! What a text of tables and SQL asks for, done.

ghost use Rattle.std.specs.Prelude.{◌≤◌, IfOk, IfErr, Ok, Err};
ghost use Rattle.run_files_meaning.specs.Refusal.{RefusedAs};
ghost use Rattle.run_exec_meaning.specs.Running.{Running, ScriptAsks, ScriptText};

use crate::parts::read_parts;
use crate::run::run_parts;
use run_meaning::Status;
use std::alloc::Global;
use std::thread::Threads;

/// The cells of the rows of the script that stands behind the tables, or the status that the text asks
/// for: a fault of the tables goes before one of the SQL, whose places are counted from its first byte,
/// and reading the SQL goes before binding it. `pieces` is 1 to 64, and changes no answer.
#[tactic(auto, using(crate::proofs::Runs::text_asks, crate::proofs::Runs::text_refused))]
pub fn script_text<R: Threads + Sync>(
    rt: &R,
    alloc: Global,
    text: &[u8],
    pieces: u32,
) -> Result<Vec<u8>, Status>
    requires some { 1 ≤ pieces }
    requires few { pieces ≤ 64 }
    ensures ok { IfOk result (λ cells. (work : Running) × ScriptAsks text.now (Ok work) × ScriptText work cells.items) }
    ensures err { IfErr result (λ status. RefusedAs status (λ s. ScriptAsks text.now (Err s))) }
{
    let parts = match read_parts(alloc, text) {
        Ok(parts) => parts,
        Err(status) => return Err(status),
    };
    match run_parts(rt, alloc, &parts, pieces) {
        Ok(cells) => Ok(cells),
        Err(status) => Err(status),
    }
}
