//! Indexes of relations, made where they are wanted.

ghost use Rattle.std.specs.Prelude.{◌≡◌, IfOk};
ghost use Rattle.sql_bind_meaning.specs.Sources.{relation_rows};
ghost use Rattle.sql_index.specs.Found.{IsIndexOf};

use crate::relations::Relations;
use rel_cells::{CellView, TableSet};
use sql_index::{CellColumn, Index};
use std::alloc::{AllocError, Global};

/// A column of a relation.
#[derive(Drop)]
struct RelationColumn<'a, T: TableSet> {
    relations: &'a Relations<'a, T>,
    relation: usize,
    column: usize,
}

impl<'a, T: TableSet> CellColumn for RelationColumn<'a, T> {
    ghost use Rattle.sql_bind_meaning.specs.Sources.{relation_rows};
    ghost use Rattle.sql_index.specs.Columns.{column_cells};

    ghost cells = { λ c. column_cells (relation_rows c.relations.now c.relation) c.column };

    #[tactic(auto, using(sql_index::specs::Columns::cells_count))]
    fn count(&self) -> usize {
        self.relations.count(self.relation)
    }

    #[tactic(auto, using(sql_index::specs::Columns::cells_count, sql_index::specs::Columns::cell_there))]
    fn cell(&self, row: usize) -> CellView<'_> {
        self.relations.cell(self.relation, row, self.column)
    }
}

// The index of a column of a relation.
fn relation_index<'a, T: TableSet>(
    alloc: Global,
    relations: &'a Relations<'a, T>,
    relation: usize,
    column: usize,
) -> Result<Index, AllocError>
    ensures { IfOk result (λ index. IsIndexOf index (relation_rows relations.now relation) column) }
{
    let cells = RelationColumn {
        relations,
        relation,
        column,
    };
    Index::of_column(alloc, &cells)
}

impl<'a, T: TableSet> Relations<'a, T> {
    /// Makes and keeps the index of a column of a relation, where it isn't kept and the relation is there. No relation changes.
    pub fn keep_index(
        &mut self,
        alloc: Global,
        relation: usize,
        column: usize,
    ) -> Result<(), AllocError>
        ensures { self.new ≡ self.old }
    {
        if self.has(relation) && self.index(relation, column).is_none() {
            let index = relation_index(alloc, self, relation, column)?;
            self.add_index(relation, column, index)?;
        }
        Ok(())
    }
}
