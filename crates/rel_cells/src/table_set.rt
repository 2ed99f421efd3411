//! What a set of named tables shows.

use crate::view::CellView;
use rdf_meaning::Text;
use table_meaning::Schema;

/// A list of tables with distinct names; places are counted from 0.
pub trait TableSet {
    ghost use Rattle.std.specs.Prelude.{◌≡◌, ◌<◌, List, length, IsTrue};
    ghost use Rattle.table_meaning.specs.Tables.{NamedTable, is_table_set, table_at, cell_at};
    ghost use Rattle.rel_cells.specs.Seen.{seen_cell};

    ghost named_tables: { Self → List NamedTable };

    /// How many tables there are.
    fn tables(&self) -> usize
        ensures count { result ≡ length (named_tables self.now) }
        ensures set { IsTrue (is_table_set (named_tables self.now)) };

    fn name(&self, t: usize) -> &Text
        requires { t < length (named_tables self.now) }
        ensures { result.now ≡ (table_at (named_tables self.now) t).name };

    fn schema(&self, t: usize) -> &Schema
        requires { t < length (named_tables self.now) }
        ensures { result.now ≡ (table_at (named_tables self.now) t).schema };

    /// How many rows the table has.
    fn rows(&self, t: usize) -> usize
        requires { t < length (named_tables self.now) }
        ensures { result ≡ length (table_at (named_tables self.now) t).rows };

    fn cell_at(&self, t: usize, row: usize, col: usize) -> CellView<'_>
        requires table { t < length (named_tables self.now) }
        requires row { row < length (table_at (named_tables self.now) t).rows }
        requires column { col < length (table_at (named_tables self.now) t).schema }
        ensures { seen_cell result ≡ cell_at (named_tables self.now) t row col };
}
