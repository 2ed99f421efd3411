//! What a SELECT reads: its sources, each a relation.

ghost use Rattle.std.specs.Prelude.{◌≡◌, [], length, IfOk};
ghost use Rattle.sql_bind_meaning.specs.Values.{cell_in, row_in};
ghost use Rattle.rel_cells.specs.Seen.{seen_cell};
ghost use Rattle.sql_engine_values.specs.Places.{picked, after_from, source_numbers};

use crate::relations::Relations;
use rel_cells::{CellView, TableSet};
use sql_bind_meaning::BoundCore;
use std::alloc::{AllocError, Global};
use std::marker::Model;

/// The sources of a SELECT by the numbers of their relations: FROM's, where it has one, and those of its joins.
#[derive(Drop)]
pub struct Sources<'a, T: TableSet> {
    relations: &'a Relations<'a, T>,
    numbers: Vec<usize>,
}

impl<'a, T: TableSet> Model for Sources<'a, T> {
    ghost use Rattle.sql_engine_values.specs.Places.{SourceList};

    ghost Value = { SourceList };

    ghost view = { λ s. record { relations = s.relations.now; numbers = s.numbers.items } };
}

// FROM's relation, where there is one.
fn from_number(alloc: Global, from: Option<usize>) -> Result<Vec<usize>, AllocError>
    ensures { IfOk result (λ numbers. numbers.items ≡ after_from from []) }
{
    let mut numbers = Vec::new(alloc);
    if let Some(relation) = from {
        numbers.push(relation)?;
    }
    Ok(numbers)
}

#[tactic(auto, using(crate::proofs::Picking::from_append))]
fn source_numbers(alloc: Global, core: &BoundCore) -> Result<Vec<usize>, AllocError>
    ensures { IfOk result (λ numbers. numbers.items ≡ source_numbers core.now) }
{
    let mut numbers = from_number(alloc, core.from)?;
    for join in core.joins.as_slice() {
        numbers.push(join.relation)?;
    }
    Ok(numbers)
}

impl<'a, T: TableSet> Sources<'a, T> {
    /// The sources of a SELECT over these relations.
    pub fn of(
        alloc: Global,
        core: &BoundCore,
        relations: &'a Relations<'a, T>,
    ) -> Result<Sources<'a, T>, AllocError>
        ensures { IfOk result (λ sources. sources ≡ record { relations = relations.now; numbers = source_numbers core.now }) }
    {
        let numbers = source_numbers(alloc, core)?;
        Ok(Sources { relations, numbers })
    }

    /// How many sources there are.
    pub fn count(&self) -> usize
        ensures { result ≡ length self.now.numbers }
    {
        self.numbers.len()
    }

    /// The relations that the sources are of.
    pub fn relations(&self) -> &'a Relations<'a, T>
        ensures { result.now ≡ self.now.relations }
    {
        self.relations
    }

    /// The cell of the picked row of a source, and null where there is none.
    pub fn picked_cell(&self, rows: &[usize], source: usize, column: usize) -> CellView<'_>
        ensures { seen_cell result ≡ cell_in (row_in (picked self.now rows.now) source) column }
    {
        match rows.get(source) {
            Some(row) => match self.numbers.get(source) {
                Some(relation) => self.relations.cell(*relation, *row, column),
                None => CellView::Null,
            },
            None => CellView::Null,
        }
    }
}

// Takes what pieces may read at the same time.
fn share<T: Sync>(_value: &T) {}

/// The sources of a SELECT may be read by several threads at the same time, where the tables may.
pub fn share_sources<T: TableSet + Sync>(sources: &Sources<'_, T>) {
    share(sources)
}
