//! Picked rows, in one list of numbers.

ghost use Rattle.std.specs.Prelude.{◌≡◌, ◌<◌, ◌*◌, ◌++◌, ◌∷◌, [], length, slice_get, Some, OnOk};
ghost use Rattle.sql_engine_joins.specs.Rows.{in_rows};

use std::alloc::{AllocError, Global};
use std::marker::Model;

/// Rows that are picked from the first sources of a SELECT: of each row, and for each of these sources, the number of the
/// source's row. A LEFT JOIN that found none has the number past the last row.
#[derive(Debug, Drop)]
pub struct PickedRows {
    width: usize,
    count: usize,
    numbers: Vec<usize>,
}

impl Model for PickedRows {
    ghost use Rattle.std.specs.Prelude.{◌≡◌, ◌*◌, length};
    ghost use Rattle.sql_engine_joins.specs.Rows.{PickedList, in_rows};

    ghost Value = { PickedList };

    ghost view = { λ r. record { width = r.width; rows = in_rows r.width r.count r.numbers.items } };

    ghost invariant = { λ r. length r.numbers.items ≡ r.count * r.width };
}

// One row of a list that is cut into so many rows.
#[tactic(auto, using(crate::proofs::InRows::row_within, crate::proofs::InRows::row_at))]
fn row_of(numbers: &[usize], width: usize, count: usize, at: usize) -> &[usize]
    requires inside { at < count }
    requires whole { length numbers.now ≡ count * width }
    ensures row { slice_get (in_rows width count numbers.now) at ≡ Some result.now }
    ensures width { length result.now ≡ width }
{
    let start = at * width;
    &numbers[start..start + width]
}

impl PickedRows {
    /// No rows, over so many sources.
    pub(crate) fn new(alloc: Global, width: usize) -> PickedRows
        ensures { result ≡ record { width = width; rows = [] } }
    {
        PickedRows {
            width,
            count: 0,
            numbers: Vec::new(alloc),
        }
    }

    /// Over how many sources the rows are.
    pub(crate) fn width(&self) -> usize
        ensures { result ≡ self.now.width }
    {
        self.width
    }

    /// How many rows there are.
    #[tactic(auto, using(crate::proofs::InRows::in_rows_length))]
    pub fn count(&self) -> usize
        ensures { result ≡ length self.now.rows }
    {
        self.count
    }

    /// The numbers of one row.
    #[tactic(auto, using(crate::proofs::InRows::in_rows_length))]
    pub fn row(&self, at: usize) -> &[usize]
        requires { at < length self.now.rows }
        ensures row { slice_get self.now.rows at ≡ Some result.now }
        ensures width { length result.now ≡ self.now.width }
    {
        row_of(&self.numbers, self.width, self.count, at)
    }

    /// One more row, behind the others.
    #[tactic(auto, using(crate::proofs::InRows::in_rows_push, crate::proofs::InRows::numbers_more))]
    pub(crate) fn push(&mut self, row: &[usize]) -> Result<(), AllocError>
        requires { length row.now ≡ self.old.width }
        ensures { OnOk result (self.new ≡ record { width = self.old.width; rows = self.old.rows ++ row.now ∷ [] }) }
    {
        // Rows over no source take no memory, so memory doesn't bound their number.
        let Some(count) = self.count.checked_add(1) else {
            return Err(AllocError);
        };
        self.numbers.extend_from_slice(row)?;
        self.count = count;
        Ok(())
    }

    /// The rows of another list, behind these.
    #[tactic(auto, using(crate::proofs::InRows::in_rows_append, crate::proofs::InRows::numbers_more))]
    pub(crate) fn append(&mut self, other: &PickedRows) -> Result<(), AllocError>
        requires { other.now.width ≡ self.old.width }
        ensures { OnOk result (self.new ≡ record { width = self.old.width; rows = self.old.rows ++ other.now.rows }) }
    {
        let Some(count) = self.count.checked_add(other.count) else {
            return Err(AllocError);
        };
        self.numbers.extend_from_slice(&other.numbers)?;
        self.count = count;
        Ok(())
    }
}
