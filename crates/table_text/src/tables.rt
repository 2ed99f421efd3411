//! Tables, read from their text.

ghost use Rattle.std.specs.Prelude.{◌≡◌, ◌++◌, [], ℕ, map, IfOk, IsTrue, Err, MatchOption};
ghost use Rattle.table_text_meaning.specs.TableText.{TablesRead, IsFirstBadLine, text_in};
ghost use Rattle.table_text_meaning.specs.Versions.{tables_meant};
ghost use Rattle.table_meaning.specs.Tables.{is_table_set, table_name};
ghost use Rattle.table_text.specs.Reading.{head_of, with_head, with_row, step, version_of, Stepped};
ghost use Rattle.std.specs.Bool.{OnTrue};

use crate::heads::read_head;
use crate::labels::with_labels;
use crate::lines::split_line;
use crate::names::Names;
use crate::refusal::TableRefusal;
use crate::rows::read_row;
use crate::table::Table;
use rel_cells::{MemTables, RowList};
use std::alloc::{AllocError, Global};
use table_text_meaning::Version;

/// Tables, and where the SQL begins behind them, counted in bytes from 0.
#[derive(Debug, Drop)]
pub struct ReadTables {
    pub tables: MemTables,
    pub sql_at: usize,
}

// Adds a table, whose head goes on so behind `table` and a tab; false where it is no head, or its name isn't new.
fn add_head(
    alloc: Global,
    tables: &mut Vec<Table>,
    names: &mut Names,
    rest: &[u8],
) -> Result<bool, AllocError>
    requires { names.old ≡ map table_name tables.old.items }
    ensures step { IfOk result (λ good. Stepped good tables.new.items (with_head tables.old.items (head_of rest.now))) }
    ensures names { IfOk result (λ good. OnTrue good (names.new ≡ map table_name tables.new.items)) }
{
    let Some(head) = read_head(alloc, rest)? else {
        return Ok(false);
    };
    if !names.add(alloc, &head.name)? {
        return Ok(false);
    }
    tables.push(Table {
        name: head.name,
        schema: head.schema,
        rows: Vec::new(alloc),
    })?;
    Ok(true)
}

// Adds a row of the last table; false where there is none, or the line is no row of it.
fn add_row(alloc: Global, tables: &mut Vec<Table>, line: &[u8]) -> Result<bool, AllocError>
    ensures step { IfOk result (λ good. Stepped good tables.new.items (with_row tables.old.items line.now)) }
    ensures names { IfOk result (λ good. OnTrue good (map table_name tables.new.items ≡ map table_name tables.old.items)) }
{
    let count = tables.len();
    if count == 0 {
        return Ok(false);
    }
    let table = &mut tables[count - 1];
    let Some(row) = read_row(alloc, table.schema.columns(), line)? else {
        return Ok(false);
    };
    table.rows.push(row)?;
    Ok(true)
}

// Goes on with a line; false where it is out of the grammar.
fn add_line(
    alloc: Global,
    tables: &mut Vec<Table>,
    names: &mut Names,
    line: &[u8],
) -> Result<bool, AllocError>
    requires { names.old ≡ map table_name tables.old.items }
    ensures step { IfOk result (λ good. Stepped good tables.new.items (step tables.old.items line.now)) }
    ensures names { IfOk result (λ good. OnTrue good (names.new ≡ map table_name tables.new.items)) }
{
    match line.strip_prefix(b"table\t") {
        Some(rest) => add_head(alloc, tables, names, rest),
        None => add_row(alloc, tables, line),
    }
}

// The tables as a set.
fn as_set(alloc: Global, tables: Vec<Table>) -> Result<MemTables, AllocError>
    requires { IsTrue (is_table_set tables.items) }
    ensures { IfOk result (λ set. set ≡ tables.items) }
{
    let mut set = MemTables::new(alloc);
    for table in tables {
        let rows = RowList {
            schema: table.schema,
            rows: table.rows,
        };
        set.add_table(alloc, &table.name, rows)?;
    }
    Ok(set)
}

// The version that a first line names.
fn version_of(line: &[u8]) -> Option<Version>
    ensures { result ≡ version_of line.now }
{
    if line == b"tables 2".as_slice() {
        Some(Version::Second)
    } else if line == b"tables 1".as_slice() {
        Some(Version::First)
    } else {
        None
    }
}

// The version that the first line names, and what follows that line.
fn after_first_line(bytes: &[u8]) -> Option<(Version, &[u8])>
    ensures cases { MatchOption result (IsFirstBadLine bytes.now 1) (λ x. bytes.now ≡ text_in x.0 [] ++ x.1.now) }
{
    let (line, rest) = split_line(bytes)?;
    let Some(version) = version_of(line) else {
        return None;
    };
    Some((version, rest))
}

// The tables that are meant where these are written.
fn tables_meant(
    alloc: Global,
    version: Version,
    written: Vec<Table>,
) -> Result<Vec<Table>, AllocError>
    ensures { IfOk result (λ tables. tables.items ≡ tables_meant version written.items) }
{
    match version {
        Version::First => with_labels(alloc, written),
        Version::Second => Ok(written),
    }
}

/// Reads tables up to and with the line `-- sql`. `Bad` names the first line that is out of the
/// grammar of tables as text, counted from 1.
pub fn read_tables(alloc: Global, bytes: &[u8]) -> Result<ReadTables, TableRefusal>
    ensures read { IfOk result (λ read. TablesRead bytes.now read.tables read.sql_at) }
    ensures bad { (line : ℕ) → result ≡ Err (TableRefusal.Bad line) → IsFirstBadLine bytes.now line }
{
    let mut tables = Vec::new(alloc);
    let mut names = Names::new(alloc);
    let Some((version, mut rest)) = after_first_line(bytes) else {
        return Err(TableRefusal::Bad { line: 1 });
    };
    let mut line = 2;
    'lines: loop {
        let Some((text, after)) = split_line(rest) else {
            return Err(TableRefusal::Bad { line });
        };
        if text == b"-- sql".as_slice() {
            let meant = tables_meant(alloc, version, tables)?;
            return Ok(ReadTables {
                tables: as_set(alloc, meant)?,
                sql_at: bytes.len() - after.len(),
            });
        }
        if !add_line(alloc, &mut tables, &mut names, text)? {
            return Err(TableRefusal::Bad { line });
        }
        rest = after;
        line += 1;
    }
}
