//! Reading the tables and the script of a text.

ghost use Rattle.std.specs.Prelude.{◌≤◌, IfOk, IfErr, Err, List, drop, length, IsTrue};
ghost use Rattle.table_meaning.specs.Tables.{NamedTable};
ghost use Rattle.table_text_meaning.specs.TableText.{TablesRead};
ghost use Rattle.sql_meaning.specs.Texts.{SpellsOnly};
ghost use Rattle.sql_meaning.specs.Scripts.{script_form};
ghost use Rattle.run_files_meaning.specs.Refusal.{RefusedAs};
ghost use Rattle.run_exec_meaning.specs.Running.{SqlAsks, ScriptAsks, judged_script};

use rel_cells::MemTables;
use run_meaning::{SqlFault, Status};
use sql_meaning::Script;
use sql_text::{SqlRefusal, read_sql};
use std::alloc::Global;
use table_text::{ReadTables, TableRefusal, read_tables};

/// The tables and the script that a text holds.
#[derive(Drop)]
pub struct Parts {
    pub tables: MemTables,
    pub script: Script,
}

// The tables in front, and where the SQL begins.
#[tactic(auto, using(run_exec_meaning::specs::Running::is_bad))]
fn front_tables(alloc: Global, text: &[u8]) -> Result<ReadTables, Status>
    ensures ok { IfOk result (λ read. TablesRead text.now read.tables read.sql_at) }
    ensures err { IfErr result (λ status. RefusedAs status (λ s. ScriptAsks text.now (Err s))) }
{
    match read_tables(alloc, text) {
        Ok(read) => Ok(read),
        Err(TableRefusal::NoMemory) => Err(Status::NoMemory),
        Err(TableRefusal::Bad { line }) => Err(Status::BadTables { line }),
    }
}

// The script behind the tables.
#[tactic(auto, using(crate::proofs::Runs::writable_form))]
fn script_behind(alloc: Global, text: &[u8], sql_at: usize) -> Result<Script, Status>
    requires { sql_at ≤ length text.now }
    ensures ok { IfOk result (λ script. SpellsOnly (drop sql_at text.now) script) }
    ensures form { IfOk result (λ script. IsTrue (script_form script)) }
    ensures err { IfErr result (λ status. RefusedAs status (λ s. (tables : List NamedTable) → SqlAsks tables (drop sql_at text.now) (Err s))) }
{
    match read_sql(alloc, &text[sql_at..]) {
        Ok(script) => Ok(script),
        Err(SqlRefusal::NoMemory) => Err(Status::NoMemory),
        Err(SqlRefusal::Deep) => Err(Status::BadSql {
            why: SqlFault::Deep,
        }),
        Err(SqlRefusal::Syntax { at }) => Err(Status::BadSql {
            why: SqlFault::Syntax { at },
        }),
    }
}

/// Reads the tables, and then the SQL behind them.
#[tactic(auto, using(crate::specs::Places::sql_within))]
pub(crate) fn read_parts(alloc: Global, text: &[u8]) -> Result<Parts, Status>
    ensures ok { IfOk result (λ parts. ScriptAsks text.now (judged_script parts.tables parts.script)) }
    ensures form { IfOk result (λ parts. IsTrue (script_form parts.script)) }
    ensures err { IfErr result (λ status. RefusedAs status (λ s. ScriptAsks text.now (Err s))) }
{
    let read = match front_tables(alloc, text) {
        Ok(read) => read,
        Err(status) => return Err(status),
    };
    match script_behind(alloc, text, read.sql_at) {
        Ok(script) => Ok(Parts {
            tables: read.tables,
            script,
        }),
        Err(status) => Err(status),
    }
}
