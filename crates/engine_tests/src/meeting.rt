//! A table set that notes whether two of its rows are read at the same time.

ghost use Rattle.std.specs.Prelude.{◌≡◌};
ghost use Rattle.engine_tests.specs.TwoRows.{table_name, one_column};

use rdf_meaning::{Text, text_of};
use rel_cells::{CellView, Column, Kind, Schema, TableSet};
use std::alloc::{AllocError, Global};
use std::sync::atomic::{AtomicU64, Ordering};

/// How often a read looks for the other row at most.
const LOOKS: u64 = 100_000_000;

/// One table with the ints 1 and 2.
#[derive(Drop)]
pub(crate) struct Meeting {
    name: Text,
    schema: Schema,
    first: AtomicU64,
    second: AtomicU64,
    noted: AtomicU64,
    pub ghost name_is: { name ≡ table_name },
    pub ghost schema_is: { schema ≡ one_column },
}

/// The table, of which no row is read.
pub(crate) fn make_meeting(alloc: Global) -> Result<Meeting, AllocError> {
    let name = text_of(alloc, "T")?;
    let mut columns = Vec::new(alloc);
    columns.push(Column {
        name: text_of(alloc, "a")?,
        kind: Kind::Int,
    })?;
    Ok(Meeting {
        name,
        schema: Schema::new(columns),
        first: AtomicU64::new(0),
        second: AtomicU64::new(0),
        noted: AtomicU64::new(0),
    })
}

impl Meeting {
    /// Whether both rows were once read at the same time.
    pub(crate) fn was_noted(&self) -> bool {
        self.noted.load(Ordering::SeqCst) != 0
    }

    // Looks for the other row, as long as no meeting is noted.
    fn look(&self, mine: &AtomicU64, other: &AtomicU64) {
        mine.store(1, Ordering::SeqCst);
        for _ in 0..LOOKS {
            if self.was_noted() {
                break;
            }
            if other.load(Ordering::SeqCst) != 0 {
                self.noted.store(1, Ordering::SeqCst);
                break;
            }
        }
        mine.store(0, Ordering::SeqCst);
    }
}

impl TableSet for Meeting {
    ghost use Rattle.engine_tests.specs.TwoRows.{two_rows};

    ghost named_tables = { λ _. two_rows };

    fn tables(&self) -> usize {
        1
    }

    fn name(&self, _t: usize) -> &Text {
        &self.name
    }

    fn schema(&self, _t: usize) -> &Schema {
        &self.schema
    }

    fn rows(&self, _t: usize) -> usize {
        2
    }

    fn cell_at(&self, _t: usize, row: usize, _col: usize) -> CellView<'_> {
        if row == 0 {
            self.look(&self.first, &self.second);
            CellView::Int(1)
        } else {
            self.look(&self.second, &self.first);
            CellView::Int(2)
        }
    }
}
