//! Tables, written as text.
#![tactic(auto, using(rel_cells::specs::Fronts::kept_same, rel_cells::specs::Fronts::kept_append, rel_cells::specs::Fronts::kept_on))]

ghost use Rattle.std.specs.Prelude.{◌≡◌, ◌++◌, ◌<◌, length, map, OnOk, OnErr, IsTrue};
ghost use Rattle.std.specs.List.{flat_map, list_all};
ghost use Rattle.rel_cells.specs.Fronts.{KeepsFront};
ghost use Rattle.table_meaning.specs.CellText.{ended, after_tab};
ghost use Rattle.table_meaning.specs.Tables.{table_at, row_at, is_table_set};
ghost use Rattle.table_text_meaning.specs.TableText.{column_text, head_line, table_text, is_plain_table, is_held_table, is_spelled_set, kind_mark};
ghost use Rattle.table_text.specs.Writing.{tab_before, row_front, rows_front, table_front, cells_held, rows_held};

use rel_cells::{Column, Kind, TableSet, write_cell};
use std::alloc::AllocError;

fn mark(kind: Kind) -> &'static [u8]
    ensures { result.now ≡ kind_mark kind }
{
    match kind {
        Kind::Int => b":int",
        Kind::Text => b":text",
        Kind::Truth => b":truth",
    }
}

fn write_column(column: &Column, into: &mut Vec<u8>) -> Result<(), AllocError>
    ensures ok { OnOk result (into.new.items ≡ into.old.items ++ after_tab (column_text column.now)) }
    ensures kept { KeepsFront into.old.items into.new.items }
{
    into.push(b'\t')?;
    into.extend_from_slice(column.name.bytes())?;
    into.extend_from_slice(mark(column.kind))?;
    Ok(())
}

fn write_columns(columns: &[Column], into: &mut Vec<u8>) -> Result<(), AllocError>
    ensures ok { OnOk result (into.new.items ≡ into.old.items ++ flat_map after_tab (map column_text columns.now)) }
    ensures kept { KeepsFront into.old.items into.new.items }
{
    for column in columns {
        write_column(column, into)?;
    }
    Ok(())
}

fn write_head(name: &[u8], columns: &[Column], into: &mut Vec<u8>) -> Result<(), AllocError>
    ensures ok { OnOk result (into.new.items ≡ into.old.items ++ ended (head_line name.now columns.now)) }
    ensures kept { KeepsFront into.old.items into.new.items }
{
    into.extend_from_slice(b"table\t")?;
    into.extend_from_slice(name)?;
    write_columns(columns, into)?;
    into.push(b'\n')?;
    Ok(())
}

fn write_tab(col: usize, into: &mut Vec<u8>) -> Result<(), AllocError>
    ensures ok { OnOk result (into.new.items ≡ into.old.items ++ tab_before col) }
    ensures kept { KeepsFront into.old.items into.new.items }
{
    if col > 0 {
        into.push(b'\t')?;
    }
    Ok(())
}

fn write_row<T: TableSet>(
    tables: &T,
    t: usize,
    row: usize,
    columns: usize,
    into: &mut Vec<u8>,
) -> Result<(), AllocError>
    requires table { t < length (T.named_tables tables.now) }
    requires row { row < length (table_at (T.named_tables tables.now) t).rows }
    requires columns { columns ≡ length (table_at (T.named_tables tables.now) t).schema }
    ensures ok { OnOk result (into.new.items ≡ into.old.items ++ row_front (row_at (T.named_tables tables.now) t row) columns) }
    ensures kept { KeepsFront into.old.items into.new.items }
    ensures held { OnOk result (IsTrue (cells_held (row_at (T.named_tables tables.now) t row) columns)) }
{
    for col in 0..columns {
        write_tab(col, into)?;
        write_cell(tables.cell_at(t, row, col), into)?;
    }
    Ok(())
}

fn write_rows<T: TableSet>(
    tables: &T,
    t: usize,
    columns: usize,
    into: &mut Vec<u8>,
) -> Result<(), AllocError>
    requires table { t < length (T.named_tables tables.now) }
    requires columns { columns ≡ length (table_at (T.named_tables tables.now) t).schema }
    ensures ok { OnOk result (into.new.items ≡ into.old.items ++ rows_front (T.named_tables tables.now) t (length (table_at (T.named_tables tables.now) t).rows)) }
    ensures kept { KeepsFront into.old.items into.new.items }
    ensures held { OnOk result (IsTrue (rows_held (T.named_tables tables.now) t (length (table_at (T.named_tables tables.now) t).rows))) }
{
    for row in 0..tables.rows(t) {
        write_row(tables, t, row, columns, into)?;
        into.push(b'\n')?;
    }
    Ok(())
}

fn write_table<T: TableSet>(tables: &T, t: usize, into: &mut Vec<u8>) -> Result<(), AllocError>
    requires { t < length (T.named_tables tables.now) }
    ensures ok { OnOk result (into.new.items ≡ into.old.items ++ table_front (T.named_tables tables.now) t) }
    ensures kept { KeepsFront into.old.items into.new.items }
    ensures held { OnOk result (IsTrue (rows_held (T.named_tables tables.now) t (length (table_at (T.named_tables tables.now) t).rows))) }
{
    let columns = tables.schema(t).columns();
    write_head(tables.name(t).bytes(), columns, into)?;
    write_rows(tables, t, columns.len(), into)
}

fn write_all<T: TableSet>(tables: &T, into: &mut Vec<u8>) -> Result<(), AllocError>
    ensures ok { OnOk result (into.new.items ≡ into.old.items ++ table_text (T.named_tables tables.now)) }
    ensures kept { KeepsFront into.old.items into.new.items }
    ensures set { OnOk result (IsTrue (is_table_set (T.named_tables tables.now))) }
    ensures held { OnOk result (IsTrue (list_all is_held_table (T.named_tables tables.now))) }
{
    into.extend_from_slice(b"tables 2\n")?;
    for t in 0..tables.tables() {
        write_table(tables, t, into)?;
    }
    Ok(())
}

/// Appends the lines of the tables, up to and without the line `-- sql`; after an error `into` is
/// as before. The names must be names of the SQL dialect, and no column may have truths; what is
/// written is then a text that spells these tables.
#[tactic(auto, using(crate::proofs::HeldCells::written_set, rel_cells::specs::Fronts::kept_same, rel_cells::specs::Fronts::kept_append, rel_cells::specs::Fronts::kept_on))]
pub fn write_tables<T: TableSet>(tables: &T, into: &mut Vec<u8>) -> Result<(), AllocError>
    requires { IsTrue (list_all is_plain_table (T.named_tables tables.now)) }
    ensures ok { OnOk result (into.new.items ≡ into.old.items ++ table_text (T.named_tables tables.now)) }
    ensures spelled { OnOk result (IsTrue (is_spelled_set (T.named_tables tables.now))) }
    ensures err { OnErr result (into.new.items ≡ into.old.items) }
{
    let start = into.len();
    let written = write_all(tables, into);
    if written.is_err() {
        into.truncate(start);
    }
    written
}
