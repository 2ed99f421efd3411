//! Cells that are lent.

ghost use Rattle.std.specs.Prelude.{◌≡◌};
ghost use Rattle.rel_cells.specs.Seen.{seen_cell};

use rdf_meaning::Text;
use table_meaning::Cell;

/// A cell, whose text is lent.
#[derive(Clone, Copy, Debug, Drop)]
pub enum CellView<'a> {
    Null,
    Int(i128),
    Text(&'a Text),
    Truth(bool),
}

impl<'a> CellView<'a> {
    /// The view of a cell.
    pub fn of(cell: &'a Cell) -> CellView<'a>
        ensures { seen_cell result ≡ cell.now }
    {
        match cell {
            Cell::Null => CellView::Null,
            Cell::Int(number) => CellView::Int(*number),
            Cell::Text(text) => CellView::Text(text),
            Cell::Truth(truth) => CellView::Truth(*truth),
        }
    }
}
