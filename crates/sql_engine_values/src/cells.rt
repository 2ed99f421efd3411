//! Cells that are lent, compared.

ghost use Rattle.std.specs.Prelude.{◌≡◌};
ghost use Rattle.sql_rows_meaning.specs.Cells.{is_null, cell_order, same_cell, equal_cells, less_cells};
ghost use Rattle.sql_rows_meaning.specs.Values.{is_true};
ghost use Rattle.rel_cells.specs.Seen.{seen_cell};
ghost use Rattle.sql_engine_values.specs.Known.{known};

use rel_cells::CellView;
use std::cmp::Ordering;

pub(crate) fn is_null(cell: CellView<'_>) -> bool
    ensures { result ≡ is_null (seen_cell cell.entry) }
{
    matches!(cell, CellView::Null)
}

/// Whether the cell is the truth `true`.
pub(crate) fn is_true(cell: CellView<'_>) -> bool
    ensures { result ≡ is_true (seen_cell cell.entry) }
{
    matches!(cell, CellView::Truth(true))
}

/// The order of a key: null, ints by size, texts by their bytes, false, true.
pub fn order_views(a: CellView<'_>, b: CellView<'_>) -> Ordering
    ensures { result ≡ cell_order (seen_cell a.entry) (seen_cell b.entry) }
{
    match (a, b) {
        (CellView::Null, CellView::Null) => Ordering::Equal,
        (CellView::Null, _) => Ordering::Less,
        (_, CellView::Null) => Ordering::Greater,
        (CellView::Int(x), CellView::Int(y)) => x.cmp(&y),
        (CellView::Int(_), _) => Ordering::Less,
        (_, CellView::Int(_)) => Ordering::Greater,
        (CellView::Text(x), CellView::Text(y)) => x.bytes().cmp(y.bytes()),
        (CellView::Text(_), _) => Ordering::Less,
        (_, CellView::Text(_)) => Ordering::Greater,
        (CellView::Truth(x), CellView::Truth(y)) => x.cmp(&y),
    }
}

/// Whether the cells are the same, nulls too.
pub fn same_views(a: CellView<'_>, b: CellView<'_>) -> bool
    ensures { result ≡ same_cell (seen_cell a.entry) (seen_cell b.entry) }
{
    match (a, b) {
        (CellView::Null, CellView::Null) => true,
        (CellView::Int(x), CellView::Int(y)) => x == y,
        (CellView::Text(x), CellView::Text(y)) => x.bytes() == y.bytes(),
        (CellView::Truth(x), CellView::Truth(y)) => x == y,
        _ => false,
    }
}

/// `=`: none where a side is null.
pub fn equal_views(a: CellView<'_>, b: CellView<'_>) -> Option<bool>
    ensures { known result ≡ equal_cells (seen_cell a.entry) (seen_cell b.entry) }
{
    if is_null(a) || is_null(b) {
        None
    } else {
        Some(same_views(a, b))
    }
}

/// `<`: none where a side is null.
pub fn less_views(a: CellView<'_>, b: CellView<'_>) -> Option<bool>
    ensures { known result ≡ less_cells (seen_cell a.entry) (seen_cell b.entry) }
{
    if is_null(a) || is_null(b) {
        None
    } else {
        Some(order_views(a, b) == Ordering::Less)
    }
}
