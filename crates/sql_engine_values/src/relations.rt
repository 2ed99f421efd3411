//! What a script reads: the given tables, and the rows of its steps so far.

ghost use Rattle.std.specs.Prelude.{◌≡◌, ◌<◌, ◌++◌, ◌∷◌, [], List, length, IsTrue, IfSome, OnOk, OnErr};
ghost use Rattle.table_meaning.specs.Tables.{is_table_set};
ghost use Rattle.sql_bind_meaning.specs.Values.{cell_in, row_in};
ghost use Rattle.sql_bind_meaning.specs.Sources.{relation_rows};
ghost use Rattle.sql_bind_meaning.specs.Rows.{table_relations};
ghost use Rattle.rel_cells.specs.Seen.{seen_cell};
ghost use Rattle.sql_index.specs.Found.{IsIndexOf};

use crate::finding::find;
use crate::kept::KeptIndex;
use rel_cells::{CellView, Row, TableSet};
use sql_index::Index;
use std::alloc::{AllocError, Global};
use std::marker::Model;

/// The rows of a step.
#[derive(Debug, Drop)]
pub struct StepRows {
    pub rows: Vec<Row>,
}

impl Model for StepRows {
    ghost use Rattle.std.specs.Prelude.{List};
    ghost use Rattle.table_meaning.specs.declared.cell.Cell.{Cell};

    ghost Value = { List (List Cell) };

    ghost view = { λ s. s.rows.items };
}

impl StepRows {
    fn count(&self) -> usize
        ensures { result ≡ length self.now }
    {
        self.rows.len()
    }

    // The cell at a place, and null where there is none.
    fn cell(&self, row: usize, column: usize) -> CellView<'_>
        ensures { seen_cell result ≡ cell_in (row_in self.now row) column }
    {
        match self.rows.get(row) {
            Some(row) => match row.cells.get(column) {
                Some(cell) => CellView::of(cell),
                None => CellView::Null,
            },
            None => CellView::Null,
        }
    }
}

/// The given tables and the steps so far, with indexes of some of their columns; contracts see the rows of each.
#[derive(Drop)]
pub struct Relations<'a, T: TableSet> {
    tables: &'a T,
    steps: Vec<StepRows>,
    indexes: Vec<KeptIndex>,
}

impl<'a, T: TableSet> Model for Relations<'a, T> {
    ghost use Rattle.std.specs.Prelude.{List, ◌++◌, All};
    ghost use Rattle.table_meaning.specs.declared.cell.Cell.{Cell};
    ghost use Rattle.sql_bind_meaning.specs.Rows.{table_relations};
    ghost use Rattle.sql_engine_values.specs.Kept.{IsKept};

    ghost Value = { List (List (List Cell)) };

    ghost view = { λ r. table_relations (T.named_tables r.tables.now) ++ r.steps.items };

    ghost invariant = { λ r. All (IsKept (table_relations (T.named_tables r.tables.now) ++ r.steps.items)) r.indexes.items };
}

// The cell of a table at a place, and null where there is none.
#[tactic(auto, using(crate::proofs::TableCells::past_rows, crate::proofs::TableCells::past_columns))]
fn table_cell<T: TableSet>(tables: &T, table: usize, row: usize, column: usize) -> CellView<'_>
    requires table { table < length (T.named_tables tables.now) }
    requires set { IsTrue (is_table_set (T.named_tables tables.now)) }
    ensures { seen_cell result ≡ cell_in (row_in (relation_rows (table_relations (T.named_tables tables.now)) table) row) column }
{
    if tables.rows(table) <= row {
        return CellView::Null;
    }
    if tables.schema(table).columns().len() <= column {
        return CellView::Null;
    }
    tables.cell_at(table, row, column)
}

impl<'a, T: TableSet> Relations<'a, T> {
    /// The tables, before any step.
    pub fn new(alloc: Global, tables: &'a T) -> Relations<'a, T>
        ensures { result ≡ table_relations (T.named_tables tables.now) }
    {
        Relations {
            tables,
            steps: Vec::new(alloc),
            indexes: Vec::new(alloc),
        }
    }

    /// One more relation, behind the others; after an error they are as before.
    pub fn add_step(&mut self, rows: Vec<Row>) -> Result<(), AllocError>
        ensures ok { OnOk result (self.new ≡ self.old ++ rows.items ∷ []) }
        ensures err { OnErr result (self.new ≡ self.old) }
    {
        self.steps.push(StepRows { rows })?;
        Ok(())
    }

    /// How many rows a relation has; none where there is no such relation.
    pub fn count(&self, relation: usize) -> usize
        ensures { result ≡ length (relation_rows self.now relation) }
    {
        let tables = self.tables.tables();
        if relation < tables {
            self.tables.rows(relation)
        } else {
            match self.steps.get(relation - tables) {
                Some(step) => step.count(),
                None => 0,
            }
        }
    }

    /// The cell of a relation at a place, and null where there is none.
    pub fn cell(&self, relation: usize, row: usize, column: usize) -> CellView<'_>
        ensures { seen_cell result ≡ cell_in (row_in (relation_rows self.now relation) row) column }
    {
        let tables = self.tables.tables();
        if relation < tables {
            table_cell(self.tables, relation, row, column)
        } else {
            match self.steps.get(relation - tables) {
                Some(step) => step.cell(row, column),
                None => CellView::Null,
            }
        }
    }

    /// The index of a column of a relation, where it is kept.
    pub fn index(&self, relation: usize, column: usize) -> Option<&Index>
        ensures { IfSome result (λ index. IsIndexOf index.now (relation_rows self.now relation) column) }
    {
        find(self.indexes.as_slice(), relation, column)
    }

    // Whether there is a relation with this number.
    pub(crate) fn has(&self, relation: usize) -> bool
        ensures { IsTrue result → relation < length self.now }
    {
        let tables = self.tables.tables();
        relation < tables || relation - tables < self.steps.len()
    }

    // Keeps an index; after an error none is kept beside those before.
    #[tactic(auto, using(crate::proofs::Stays::one_more))]
    pub(crate) fn add_index(
        &mut self,
        relation: usize,
        column: usize,
        index: Index,
    ) -> Result<(), AllocError>
        requires there { relation < length self.old }
        requires index { IsIndexOf index (relation_rows self.old relation) column }
        ensures { self.new ≡ self.old }
    {
        self.indexes.push(KeptIndex {
            relation,
            column,
            index,
        })?;
        Ok(())
    }
}

// Takes what pieces may read at the same time.
fn share<T: Sync>(_value: &T) {}

/// The tables and the rows of the steps may be read by several threads at the same time, where the tables may.
pub fn share_relations<T: TableSet + Sync>(relations: &Relations<'_, T>) {
    share(relations)
}
