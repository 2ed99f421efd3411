//! The labels of blank nodes in a text of version 1.

ghost use Rattle.std.specs.Prelude.{◌≡◌, ◌++◌, IfOk, map, codes};
ghost use Rattle.table_text_meaning.specs.Versions.{is_int_column, is_text_column, are_term_columns, is_term_table, with_label, with_labels};

use crate::table::Table;
use rdf_meaning::{Text, text_of};
use rel_cells::{Cell, Column, Kind, Row};
use std::alloc::{AllocError, Global};

fn is_int_column(name: &str, column: &Column) -> bool
    ensures { result ≡ is_int_column name.now column.now }
{
    column.name.as_str() == name && matches!(column.kind, Kind::Int)
}

fn is_text_column(name: &str, column: &Column) -> bool
    ensures { result ≡ is_text_column name.now column.now }
{
    column.name.as_str() == name && matches!(column.kind, Kind::Text)
}

fn are_term_columns(columns: &[Column]) -> bool
    ensures { result ≡ are_term_columns columns.now }
{
    let [id, cls, num, txt, aux] = columns else {
        return false;
    };
    is_int_column("id", id)
        && is_int_column("cls", cls)
        && is_int_column("num", num)
        && is_text_column("txt", txt)
        && is_text_column("aux", aux)
}

fn is_term_table(table: &Table) -> bool
    ensures { result ≡ is_term_table table.now }
{
    table.name.as_str() == "TERM" && are_term_columns(table.schema.columns())
}

// The label in data file 0.
fn of_first_file(alloc: Global, label: &Text) -> Result<Text, AllocError>
    ensures { IfOk result (λ text. text ≡ codes "f0b" ++ label.now) }
{
    let text = format!(in alloc; "f0b{}", label.as_str())?;
    text_of(alloc, text.as_str())
}

// A row of the table of terms.
fn with_label(alloc: Global, mut row: Row) -> Result<Row, AllocError>
    ensures { IfOk result (λ labelled. labelled ≡ with_label row) }
{
    if let [_, Cell::Int(1), _, Cell::Text(label), _] = row.cells.as_slice() {
        let text = of_first_file(alloc, label)?;
        row.cells[3] = Cell::Text(text);
    }
    Ok(row)
}

fn with_label_rows(alloc: Global, rows: Vec<Row>) -> Result<Vec<Row>, AllocError>
    ensures { IfOk result (λ labelled. labelled.items ≡ map with_label rows.items) }
{
    let mut labelled = Vec::with_capacity(alloc, rows.len())?;
    for row in rows {
        labelled.push(with_label(alloc, row)?)?;
    }
    Ok(labelled)
}

fn with_table_labels(alloc: Global, table: Table) -> Result<Table, AllocError>
    ensures { IfOk result (λ labelled. labelled ≡ with_labels table) }
{
    if !is_term_table(&table) {
        return Ok(table);
    }
    Ok(Table {
        name: table.name,
        schema: table.schema,
        rows: with_label_rows(alloc, table.rows)?,
    })
}

/// Tables of a text of version 1, with the labels of their terms in data file 0.
pub fn with_labels(alloc: Global, tables: Vec<Table>) -> Result<Vec<Table>, AllocError>
    ensures { IfOk result (λ labelled. labelled.items ≡ map with_labels tables.items) }
{
    let mut labelled = Vec::with_capacity(alloc, tables.len())?;
    for table in tables {
        labelled.push(with_table_labels(alloc, table)?)?;
    }
    Ok(labelled)
}
