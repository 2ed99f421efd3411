//! Tables in memory.

ghost use Rattle.std.specs.Prelude.{◌≡◌, ◌<◌, ◌++◌, ◌∷◌, [], not, length, unwrap_or, slice_get, IsTrue, OnOk, OnErr};
ghost use Rattle.table_meaning.specs.declared.cell.Cell.TheVariants.{Null};
ghost use Rattle.table_meaning.specs.Tables.{has_table, named};
ghost use Rattle.rel_cells.specs.Seen.{seen_cell};

use crate::table_set::TableSet;
use crate::view::CellView;
use rdf_meaning::Text;
use std::alloc::{AllocError, Global};
use std::marker::Model;
use table_meaning::{RowList, Schema};

#[derive(Debug, Drop)]
struct MemTable {
    name: Text,
    rows: RowList,
}

impl Model for MemTable {
    ghost use Rattle.table_meaning.specs.Tables.{NamedTable, named};

    ghost Value = { NamedTable };

    ghost view = { λ t. named t.name t.rows };
}

// The cell at a place.
fn cell_in(rows: &RowList, row: usize, col: usize) -> CellView<'_>
    requires row { row < length rows.now.rows }
    requires column { col < length rows.now.schema }
    ensures { seen_cell result ≡ unwrap_or (slice_get (unwrap_or (slice_get rows.now.rows row) []) col) Null }
{
    let row = &rows.rows[row];
    CellView::of(&row.cells[col])
}

/// Tables with distinct names, in the order in which they were added.
#[derive(Debug, Drop)]
pub struct MemTables {
    tables: Vec<MemTable>,
}

impl Model for MemTables {
    ghost use Rattle.std.specs.Prelude.{List, IsTrue};
    ghost use Rattle.table_meaning.specs.Tables.{NamedTable, is_table_set};

    ghost Value = { List NamedTable };

    ghost view = { λ m. m.tables.items };

    ghost invariant = { λ m. IsTrue (is_table_set m.tables.items) };
}

impl MemTables {
    /// No tables.
    pub fn new(alloc: Global) -> MemTables
        ensures { result ≡ [] }
    {
        MemTables {
            tables: Vec::new(alloc),
        }
    }

    /// Adds a table, whose name must be new, behind the others. After an error the tables are as
    /// before, and the rows are given up.
    pub fn add_table(&mut self, alloc: Global, name: &Text, rows: RowList) -> Result<(), AllocError>
        requires { IsTrue (not (has_table self.old name.now)) }
        ensures ok { OnOk result (self.new ≡ self.old ++ named name.now rows ∷ []) }
        ensures err { OnErr result (self.new ≡ self.old) }
    {
        let _ = &rows.schema;
        let name = name.copy(alloc)?;
        self.tables.push(MemTable { name, rows })?;
        Ok(())
    }
}

impl TableSet for MemTables {
    ghost named_tables = { λ tables. tables };

    fn tables(&self) -> usize {
        self.tables.len()
    }

    fn name(&self, t: usize) -> &Text {
        let table = &self.tables[t];
        &table.name
    }

    fn schema(&self, t: usize) -> &Schema {
        let table = &self.tables[t];
        let rows = &table.rows;
        &rows.schema
    }

    fn rows(&self, t: usize) -> usize {
        let table = &self.tables[t];
        let rows = &table.rows;
        rows.rows.len()
    }

    fn cell_at(&self, t: usize, row: usize, col: usize) -> CellView<'_> {
        let table = &self.tables[t];
        cell_in(&table.rows, row, col)
    }
}

// Takes what pieces may read at the same time.
fn share<T: Sync>(_value: &T) {}

/// The tables may be read by several threads at the same time.
pub fn share_mem_tables(tables: &MemTables) {
    share(tables)
}
