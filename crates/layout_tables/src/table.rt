//! One of the five tables.

ghost use Rattle.std.specs.Prelude.{◌≡◌, ◌<◌, [], length, unwrap_or, slice_get};
ghost use Rattle.table_meaning.specs.declared.cell.Cell.TheVariants.{Null};
ghost use Rattle.rel_cells.specs.Seen.{seen_cell};
ghost use Rattle.layout_tables.specs.Shown.{shown_rows};

use crate::cells::{element_cell, primary_cell};
use crate::term_row::TermRow;
use layout_elements::Element;
use primary_rows::RowView;
use rdf_meaning::Text;
use rel_cells::{CellView, Schema};
use std::marker::Model;

/// The rows of a table.
#[derive(Drop)]
pub(crate) enum TableRows<'a> {
    Primary(Vec<RowView<'a>>),
    Lists(Vec<Element>),
    Terms(Vec<TermRow<'a>>),
}

impl<'a> TableRows<'a> {
    /// How many rows there are.
    fn count(&self) -> usize
        ensures { result ≡ length (shown_rows self.now) }
    {
        match self {
            TableRows::Primary(rows) => rows.len(),
            TableRows::Lists(elements) => elements.len(),
            TableRows::Terms(rows) => rows.len(),
        }
    }

    /// The cell at a place.
    fn cell(&self, row: usize, col: usize) -> CellView<'_>
        requires { row < length (shown_rows self.now) }
        ensures { seen_cell result ≡ unwrap_or (slice_get (unwrap_or (slice_get (shown_rows self.now) row) []) col) Null }
    {
        match self {
            TableRows::Primary(rows) => primary_cell(&rows[row], col),
            TableRows::Lists(elements) => element_cell(elements[row], col),
            TableRows::Terms(rows) => rows[row].cell(col),
        }
    }
}

/// A table with its name and columns.
#[derive(Drop)]
pub(crate) struct Table<'a> {
    pub(crate) name: Text,
    pub(crate) schema: Schema,
    pub(crate) rows: TableRows<'a>,
}

impl<'a> Model for Table<'a> {
    ghost use Rattle.table_meaning.specs.Tables.{NamedTable};
    ghost use Rattle.layout_tables.specs.Shown.{shown_rows};

    ghost Value = { NamedTable };

    ghost view = { λ t. record { name = t.name; schema = t.schema; rows = shown_rows t.rows } };
}

impl<'a> Table<'a> {
    pub(crate) fn count(&self) -> usize
        ensures { result ≡ length self.now.rows }
    {
        self.rows.count()
    }

    pub(crate) fn cell(&self, row: usize, col: usize) -> CellView<'_>
        requires { row < length self.now.rows }
        ensures { seen_cell result ≡ unwrap_or (slice_get (unwrap_or (slice_get self.now.rows row) []) col) Null }
    {
        self.rows.cell(row, col)
    }
}
