//! The index of a column.

ghost use Rattle.std.specs.Prelude.{◌≡◌, ◌<◌, ◌++◌, ◌∷◌, [], List, ℕ, length, IfOk, OnOk, nat_eq, unwrap_or, if◌then◌else◌};
ghost use Rattle.std.specs.HashMap.{get};
ghost use Rattle.std.specs.Str.{bytes_eq};
ghost use Rattle.table_meaning.specs.declared.cell.Cell.{Cell};
ghost use Rattle.table_meaning.specs.Tables.{table_at};
ghost use Rattle.rel_cells.specs.Seen.{seen_cell};
ghost use Rattle.sql_index.specs.Matches.{is_equal, equal_rows};
ghost use Rattle.sql_index.specs.Found.{number_code, found, IsIndexOf};

use crate::column::{CellColumn, TableColumn};
use crate::rows::Rows;
use rdf_meaning::Text;
use rel_cells::{CellView, TableSet};
use std::alloc::{AllocError, Global};
use std::collections::HashMap;

/// The rows of each cell of a column.
#[derive(Drop)]
pub struct Index {
    numbers: HashMap<u128, Rows>,
    texts: HashMap<Text, Rows>,
    trues: Rows,
    falses: Rows,
}

// A number without its sign.
fn code(number: i128) -> u128
    ensures { result ≡ number_code number }
{
    if number >= 0 {
        number.unsigned_abs() * 2
    } else {
        (number.unsigned_abs() - 1) * 2 + 1
    }
}

// Puts a row under a number's code.
fn note_number(
    numbers: &mut HashMap<u128, Rows>,
    alloc: Global,
    code: u128,
    row: usize,
) -> Result<(), AllocError>
    ensures { OnOk result ((q : ℕ) → unwrap_or (get nat_eq numbers.new q) [] ≡ unwrap_or (get nat_eq numbers.old q) [] ++ (if nat_eq q code then row ∷ [] else [])) }
{
    if let Some(rows) = numbers.get_mut(&code) {
        return rows.push(row);
    }
    let mut rows = Rows::new(alloc);
    rows.push(row)?;
    numbers.insert(code, rows)?;
    Ok(())
}

// Puts a row under a text.
fn note_text(
    texts: &mut HashMap<Text, Rows>,
    alloc: Global,
    text: &Text,
    row: usize,
) -> Result<(), AllocError>
    ensures { OnOk result ((q : List ℕ) → unwrap_or (get bytes_eq texts.new q) [] ≡ unwrap_or (get bytes_eq texts.old q) [] ++ (if bytes_eq q text.now then row ∷ [] else [])) }
{
    if let Some(rows) = texts.get_mut(text) {
        return rows.push(row);
    }
    let mut rows = Rows::new(alloc);
    rows.push(row)?;
    let text = text.copy(alloc)?;
    let Ok(_old) = texts.insert(text, rows) else {
        return Err(AllocError);
    };
    Ok(())
}

impl Index {
    fn empty(alloc: Global) -> Index
        ensures { (key : Cell) → found result key ≡ [] }
    {
        Index {
            numbers: HashMap::new(alloc),
            texts: HashMap::new(alloc),
            trues: Rows::new(alloc),
            falses: Rows::new(alloc),
        }
    }

    // Puts a row under its cell.
    fn note(&mut self, alloc: Global, cell: CellView<'_>, row: usize) -> Result<(), AllocError>
        ensures { OnOk result ((key : Cell) → found self.new key ≡ found self.old key ++ (if is_equal key (seen_cell cell.entry) then row ∷ [] else [])) }
    {
        match cell {
            CellView::Null => Ok(()),
            CellView::Int(number) => note_number(&mut self.numbers, alloc, code(number), row),
            CellView::Text(text) => note_text(&mut self.texts, alloc, text, row),
            CellView::Truth(true) => self.trues.push(row),
            CellView::Truth(false) => self.falses.push(row),
        }
    }

    /// The index of a column.
    pub fn of_column<C: CellColumn>(alloc: Global, column: &C) -> Result<Index, AllocError>
        ensures { IfOk result (λ i. (key : Cell) → found i key ≡ equal_rows (C.cells column.now) key) }
    {
        let mut index = Index::empty(alloc);
        for row in 0..column.count() {
            index.note(alloc, column.cell(row), row)?;
        }
        Ok(index)
    }

    /// The index of a column of a table.
    pub fn build<T: TableSet>(
        alloc: Global,
        tables: &T,
        table: usize,
        column: usize,
    ) -> Result<Index, AllocError>
        requires table { table < length (T.named_tables tables.now) }
        requires column { column < length (table_at (T.named_tables tables.now) table).schema }
        ensures { IfOk result (λ i. IsIndexOf i (table_at (T.named_tables tables.now) table).rows column) }
    {
        let cells = TableColumn {
            tables,
            table,
            column,
        };
        Index::of_column(alloc, &cells)
    }

    /// The rows whose cell equals the key, rising; a null key equals none.
    pub fn matches(&self, key: &CellView<'_>) -> &[usize]
        ensures { result.now ≡ found self.now (seen_cell key.now) }
    {
        match key {
            CellView::Null => &[],
            CellView::Int(number) => match self.numbers.get(&code(*number)) {
                Some(rows) => rows.as_slice(),
                None => &[],
            },
            CellView::Text(text) => match self.texts.get(*text) {
                Some(rows) => rows.as_slice(),
                None => &[],
            },
            CellView::Truth(true) => self.trues.as_slice(),
            CellView::Truth(false) => self.falses.as_slice(),
        }
    }
}

// Takes what pieces may read at the same time.
fn share<T: Sync>(_value: &T) {}

/// An index may be read by several threads at the same time.
pub fn share_index(index: &Index) {
    share(index)
}
