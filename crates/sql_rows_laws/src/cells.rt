//! Laws of cells.

ghost use Rattle.std.specs.Prelude.{◌≡◌};
ghost use Rattle.std.specs.Bool.{Decides};
ghost use Rattle.std.specs.Cmp.{IsTotalOrder};
ghost use Rattle.std.specs.declared.cmp.Ordering.TheVariants.{Equal};
ghost use Rattle.table_meaning.specs.declared.cell.Cell.{Cell};
ghost use Rattle.sql_rows_meaning.specs.Cells.{cell_order, same_cell};

/// Cells stand in a total order, and those that tie are equal.
// For the engine's sort, and for ORDER BY in the scripts of the compiler.
pub fn cells_in_order()
    ensures total { IsTotalOrder cell_order }
    ensures ties { (a b : Cell) → cell_order a b ≡ Equal → a ≡ b }
{}

/// The test of cells says whether they are the same.
// For DISTINCT, and for joins by equality.
pub fn cells_told_apart()
    ensures { (a b : Cell) → Decides (same_cell a b) (a ≡ b) }
{}
