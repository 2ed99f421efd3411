//! The cells of rows.
#![tactic(auto, using(rel_cells::specs::Fronts::kept_same, rel_cells::specs::Fronts::kept_append, rel_cells::specs::Fronts::kept_on, crate::specs::Tabs::left_at_first))]

ghost use Rattle.std.specs.Prelude.{◌≡◌, ◌++◌, OnOk, OnErr};
ghost use Rattle.std.specs.List.{flat_map};
ghost use Rattle.rel_cells.specs.Fronts.{KeepsFront};
ghost use Rattle.table_meaning.specs.CellText.{cell_text, cells_text, row_line, tabbed};
ghost use Rattle.table_meaning.specs.Schemas.{column_names};
ghost use Rattle.answer_text.specs.Tabs.{row_text};

use rel_cells::{Cell, CellView, Column, Row, RowList, write_cell};
use std::alloc::AllocError;

// A column's name, with what stands before it.
fn write_name(column: &Column, before: &[u8], into: &mut Vec<u8>) -> Result<(), AllocError>
    ensures ok { OnOk result (into.new.items ≡ into.old.items ++ (before.now ++ column.now.name)) }
    ensures kept { KeepsFront into.old.items into.new.items }
{
    into.extend_from_slice(before)?;
    into.extend_from_slice(column.name.bytes())?;
    Ok(())
}

fn write_names(columns: &[Column], into: &mut Vec<u8>) -> Result<(), AllocError>
    ensures ok { OnOk result (into.new.items ≡ into.old.items ++ tabbed (column_names columns.now)) }
    ensures kept { KeepsFront into.old.items into.new.items }
{
    let mut before: &[u8] = b"";
    for column in columns {
        write_name(column, before, into)?;
        before = b"\t";
    }
    Ok(())
}

// A cell, with what stands before it.
fn write_cell_behind(before: &[u8], cell: &Cell, into: &mut Vec<u8>) -> Result<(), AllocError>
    ensures ok { OnOk result (into.new.items ≡ into.old.items ++ (before.now ++ cell_text cell.now)) }
    ensures kept { KeepsFront into.old.items into.new.items }
{
    into.extend_from_slice(before)?;
    write_cell(CellView::of(cell), into)?;
    Ok(())
}

fn write_line(cells: &[Cell], into: &mut Vec<u8>) -> Result<(), AllocError>
    ensures ok { OnOk result (into.new.items ≡ into.old.items ++ row_line cells.now) }
    ensures kept { KeepsFront into.old.items into.new.items }
{
    let mut before: &[u8] = b"";
    for cell in cells {
        write_cell_behind(before, cell, into)?;
        before = b"\t";
    }
    Ok(())
}

// A row and the end of its line.
fn write_row(row: &Row, into: &mut Vec<u8>) -> Result<(), AllocError>
    ensures ok { OnOk result (into.new.items ≡ into.old.items ++ row_text row.now) }
    ensures kept { KeepsFront into.old.items into.new.items }
{
    write_line(row.cells.as_slice(), into)?;
    into.push(b'\n')?;
    Ok(())
}

fn write_rows(rows: &[Row], into: &mut Vec<u8>) -> Result<(), AllocError>
    ensures ok { OnOk result (into.new.items ≡ into.old.items ++ flat_map row_text rows.now) }
    ensures kept { KeepsFront into.old.items into.new.items }
{
    for row in rows {
        write_row(row, into)?;
    }
    Ok(())
}

fn write_all(rows: &RowList, into: &mut Vec<u8>) -> Result<(), AllocError>
    ensures ok { OnOk result (into.new.items ≡ into.old.items ++ cells_text rows.now) }
    ensures kept { KeepsFront into.old.items into.new.items }
{
    write_names(rows.schema.columns(), into)?;
    into.push(b'\n')?;
    write_rows(rows.rows.as_slice(), into)?;
    Ok(())
}

/// Appends the names of the columns and then the rows, each on a line of its own, with tabs between
/// the cells: a null is `.`, a truth `T` or `F`, and numbers and texts are written as in tables. After
/// an error `into` is as before.
pub fn write_cells(rows: &RowList, into: &mut Vec<u8>) -> Result<(), AllocError>
    ensures ok { OnOk result (into.new.items ≡ into.old.items ++ cells_text rows.now) }
    ensures err { OnErr result (into.new.items ≡ into.old.items) }
{
    let start = into.len();
    let written = write_all(rows, into);
    if written.is_err() {
        into.truncate(start);
    }
    written
}
