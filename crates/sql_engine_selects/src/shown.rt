//! Rows whose cells are lent, so that those which are not kept cost no copy of a text.

ghost use Rattle.std.specs.Prelude.{◌≡◌, IfOk, map};
ghost use Rattle.std.specs.Cmp as comparisons;
ghost use Rattle.sql_rows_meaning.specs.Cells.{same_cell};
ghost use Rattle.sql_bind_meaning.specs.Selects.{bound_item_cells};
ghost use Rattle.sql_engine_values.specs.Places.{picked};
ghost use Rattle.sql_engine_selects.specs.Numbered.{cells_at};
ghost use Rattle.sql_engine_selects.specs.SameRows.{same_cell_equiv, same_cell_hash, cell_writes, same_row, same_row_equiv, same_row_hash, row_writes};
ghost use Rattle.rel_cells.specs.Seen.{seen_cell};

use crate::numbered::row_at;
use rel_cells::{Cell, CellView, Row, TableSet};
use sql_bind_meaning::BoundExpr;
use sql_engine_joins::PickedRows;
use sql_engine_values::{Sources, same_views, value};
use std::alloc::{AllocError, Global};
use std::hash::{Hash, Hasher};
use std::marker::Model;

/// A cell that is lent.
#[derive(Drop)]
pub(crate) struct ShownCell<'a> {
    pub(crate) view: CellView<'a>,
}

impl<'a> Model for ShownCell<'a> {
    ghost use Rattle.table_meaning.specs.declared.cell.Cell.{Cell};
    ghost use Rattle.rel_cells.specs.Seen.{seen_cell};

    ghost Value = { Cell };

    ghost view = { λ c. seen_cell c.view };
}

impl<'a> PartialEq for ShownCell<'a> {
    ghost eq = { same_cell };

    ghost laws = { comparisons.partial_equiv_from_equiv same_cell_equiv };

    fn eq(&self, other: &ShownCell<'a>) -> bool {
        same_views(self.view, other.view)
    }
}

impl<'a> Eq for ShownCell<'a> {
    ghost laws = { same_cell_equiv };
}

impl<'a> Hash for ShownCell<'a> {
    ghost hash_input = { cell_writes };

    ghost respects_eq = { same_cell_hash };

    fn hash<H: Hasher>(&self, state: &mut H) {
        match self.view {
            CellView::Null => 0u8.hash(state),
            CellView::Int(number) => number.hash(state),
            CellView::Text(text) => text.hash(state),
            CellView::Truth(truth) => truth.hash(state),
        }
    }
}

/// The cells of a row.
#[derive(Drop)]
pub(crate) struct ShownRow<'a> {
    pub(crate) cells: Vec<ShownCell<'a>>,
}

impl<'a> Model for ShownRow<'a> {
    ghost use Rattle.std.specs.Prelude.{List};
    ghost use Rattle.table_meaning.specs.declared.cell.Cell.{Cell};

    ghost Value = { List Cell };

    ghost view = { λ r. r.cells.items };
}

impl<'a> PartialEq for ShownRow<'a> {
    ghost eq = { same_row };

    ghost laws = { comparisons.partial_equiv_from_equiv same_row_equiv };

    #[tactic(auto, using(crate::specs::SameRows::same_row_is))]
    fn eq(&self, other: &ShownRow<'a>) -> bool {
        self.cells == other.cells
    }
}

impl<'a> Eq for ShownRow<'a> {
    ghost laws = { same_row_equiv };
}

impl<'a> Hash for ShownRow<'a> {
    ghost hash_input = { row_writes };

    ghost respects_eq = { same_row_hash };

    fn hash<H: Hasher>(&self, state: &mut H) {
        self.cells.hash(state);
    }
}

// The values of the items over one picked row.
fn shown_row<'a, T: TableSet>(
    alloc: Global,
    items: &'a [BoundExpr],
    sources: &'a Sources<'a, T>,
    row: &[usize],
) -> Result<ShownRow<'a>, AllocError>
    ensures { IfOk result (λ shown. shown ≡ bound_item_cells items.now (picked sources.now row.now)) }
{
    let mut cells = Vec::with_capacity(alloc, items.len())?;
    for item in items {
        cells.push(ShownCell {
            view: value(item, sources, row),
        })?;
    }
    Ok(ShownRow { cells })
}

/// The values of the items over the rows with these numbers.
pub(crate) fn shown_rows<'a, T: TableSet>(
    alloc: Global,
    items: &'a [BoundExpr],
    sources: &'a Sources<'a, T>,
    rows: &PickedRows,
    order: &[usize],
) -> Result<Vec<ShownRow<'a>>, AllocError>
    ensures { IfOk result (λ shown. shown.items ≡ map (cells_at sources.now rows.now items.now) order.now) }
{
    let mut shown = Vec::with_capacity(alloc, order.len())?;
    for at in order {
        shown.push(shown_row(alloc, items, sources, row_at(rows, *at))?)?;
    }
    Ok(shown)
}

fn copy_cell(alloc: Global, cell: CellView<'_>) -> Result<Cell, AllocError>
    ensures { IfOk result (λ copy. copy ≡ seen_cell cell.entry) }
{
    Ok(match cell {
        CellView::Null => Cell::Null,
        CellView::Int(number) => Cell::Int(number),
        CellView::Text(text) => Cell::Text(text.copy(alloc)?),
        CellView::Truth(truth) => Cell::Truth(truth),
    })
}

fn copy_row(alloc: Global, shown: &ShownRow<'_>) -> Result<Row, AllocError>
    ensures { IfOk result (λ row. row ≡ shown.now) }
{
    let mut cells = Vec::with_capacity(alloc, shown.cells.len())?;
    for cell in &shown.cells {
        cells.push(copy_cell(alloc, cell.view)?)?;
    }
    Ok(Row { cells })
}

/// Rows of their own.
pub(crate) fn copy_rows(alloc: Global, shown: &[ShownRow<'_>]) -> Result<Vec<Row>, AllocError>
    ensures { IfOk result (λ rows. rows.items ≡ shown.now) }
{
    let mut rows = Vec::with_capacity(alloc, shown.len())?;
    for row in shown {
        rows.push(copy_row(alloc, row)?)?;
    }
    Ok(rows)
}

// A row of its own with the values of the items over one picked row.
fn copied_row<'a, T: TableSet>(
    alloc: Global,
    items: &'a [BoundExpr],
    sources: &'a Sources<'a, T>,
    row: &[usize],
) -> Result<Row, AllocError>
    ensures { IfOk result (λ copied. copied ≡ bound_item_cells items.now (picked sources.now row.now)) }
{
    let mut cells = Vec::with_capacity(alloc, items.len())?;
    for item in items {
        cells.push(copy_cell(alloc, value(item, sources, row))?)?;
    }
    Ok(Row { cells })
}

/// Rows of their own with the values of the items over the rows with these numbers.
pub(crate) fn copied_rows<'a, T: TableSet>(
    alloc: Global,
    items: &'a [BoundExpr],
    sources: &'a Sources<'a, T>,
    rows: &PickedRows,
    order: &[usize],
) -> Result<Vec<Row>, AllocError>
    ensures { IfOk result (λ copied. copied.items ≡ map (cells_at sources.now rows.now items.now) order.now) }
{
    let mut copied = Vec::with_capacity(alloc, order.len())?;
    for at in order {
        copied.push(copied_row(alloc, items, sources, row_at(rows, *at))?)?;
    }
    Ok(copied)
}
