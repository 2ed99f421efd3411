//! Cells by their places in a row.

ghost use Rattle.std.specs.Prelude.{◌≡◌, map, unwrap_or, slice_get, if◌then◌else◌};
ghost use Rattle.std.specs.List.{flat_map};
ghost use Rattle.table_meaning.specs.declared.cell.Cell.TheVariants.{Null};
ghost use Rattle.rel_cells.specs.Seen.{seen_cell};
ghost use Rattle.primary_rows.specs.Cells.{pair_of};
ghost use Rattle.primary_rows.specs.Views.{seen_row};
ghost use Rattle.layout_standing_meaning.specs.Contents.{pair_cells, row_cells};
ghost use Rattle.layout_elements.specs.ElementRows.{element_row};

use layout_elements::Element;
use primary_rows::{Pair, RowView};
use rel_cells::CellView;

/// One of the two cells of a pair.
fn half_cell<'a>(pair: Pair, second: bool) -> CellView<'a>
    ensures { seen_cell result ≡ unwrap_or (slice_get (pair_cells (pair_of pair)) (if second then 1 else 0)) Null }
{
    if pair.pred == 0 {
        CellView::Null
    } else if second {
        CellView::Int(i128::from(pair.value))
    } else {
        CellView::Int(i128::from(pair.pred))
    }
}

/// The cell at a place among those of pairs.
fn pair_cell<'a>(pairs: &[Pair], at: usize) -> CellView<'a>
    ensures { seen_cell result ≡ unwrap_or (slice_get (flat_map pair_cells (map pair_of pairs.now)) at) Null }
{
    let place = at / 2;
    if place < pairs.len() {
        half_cell(pairs[place], at % 2 == 1)
    } else {
        CellView::Null
    }
}

/// The cell at a place of a row of a primary table.
pub(crate) fn primary_cell<'a>(row: &RowView<'_>, col: usize) -> CellView<'a>
    ensures { seen_cell result ≡ unwrap_or (slice_get (row_cells (seen_row row.now)) col) Null }
{
    match col {
        0 => CellView::Int(i128::from(row.entity)),
        1 => CellView::Int(i128::from(row.spill)),
        _ => pair_cell(row.cells, col - 2),
    }
}

/// The cell at a place of a row of a table of lists.
pub(crate) fn element_cell<'a>(element: Element, col: usize) -> CellView<'a>
    ensures { seen_cell result ≡ unwrap_or (slice_get (element_row element) col) Null }
{
    match col {
        0 => CellView::Int(i128::from(element.list)),
        1 => CellView::Int(i128::from(element.value)),
        _ => CellView::Null,
    }
}
