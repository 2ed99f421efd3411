//! The rows of one entity.

ghost use Rattle.std.specs.Prelude.{◌≡◌, ◌≤◌, ◌<◌, [], length, is_some, IsTrue, IfOk, OnOk, OnErr, Option, None, Some};
ghost use Rattle.layout_meaning.specs.Side.{find, find_in_row, write, place_new};
ghost use Rattle.primary_rows.specs.Cells.{pair_with, is_small, is_small_if};
ghost use Rattle.primary_rows.specs.Places.{opens, goes_behind, first_row};

use crate::cells::Row;
use layout_meaning::Value;
use std::alloc::{AllocError, Global};
use std::marker::Model;

/// The most rows of one entity, whose numbers have 32 bits.
const MOST_ROWS: usize = 4_294_967_295;

/// The rows of one entity, which contracts see as a list of rows.
#[derive(Drop)]
pub(crate) struct EntityRows {
    rows: Vec<Row>,
}

impl Model for EntityRows {
    ghost use Rattle.std.specs.Prelude.{length, ◌≤◌};
    ghost use Rattle.layout_meaning.specs.Side.{Rows};

    ghost Value = { Rows };

    ghost view = { λ r. r.rows.items };

    ghost invariant = { λ r. length r.rows.items ≤ 4294967295 };
}

impl EntityRows {
    /// No rows, with room for the one that most entities have.
    pub(crate) fn new(alloc: Global) -> Result<EntityRows, AllocError>
        ensures { IfOk result (λ rows. rows ≡ []) }
    {
        let rows = Vec::with_capacity(alloc, 1)?;
        Ok(EntityRows { rows })
    }

    /// These rows.
    pub(crate) fn of(rows: Vec<Row>) -> EntityRows
        requires { length rows.items ≤ 4294967295 }
        ensures { result ≡ rows.items }
    {
        EntityRows { rows }
    }

    /// The rows, of which there are not more than numbers.
    pub(crate) fn into_rows(self) -> Vec<Row>
        ensures rows { result.items ≡ self }
        ensures few { length result.items ≤ 4294967295 }
    {
        let EntityRows { rows } = self;
        rows
    }

    pub(crate) fn as_slice(&self) -> &[Row]
        ensures rows { result.now ≡ self.now }
        ensures few { length result.now ≤ 4294967295 }
    {
        self.rows.as_slice()
    }

    pub(crate) fn len(&self) -> usize
        ensures { result ≡ length self.now }
    {
        self.rows.len()
    }

    /// What stands under a predicate.
    pub(crate) fn find(&self, pred: u32) -> Option<Value>
        requires { 1 ≤ pred }
        ensures { result ≡ find pred self.now }
    {
        for row in self.rows.as_slice() {
            if let Some(value) = row.find(pred) {
                return Some(value);
            }
        }
        None
    }

    /// Whether a pair with these candidates needs a new row.
    pub(crate) fn opens(&self, columns: &[u32]) -> bool
        ensures { result ≡ opens columns.now self.now }
    {
        for row in self.rows.as_slice() {
            if row.first_free(columns).is_some() {
                return false;
            }
        }
        true
    }

    /// Whether a pair with these candidates comes behind the first row.
    pub(crate) fn goes_behind(&self, columns: &[u32]) -> bool
        ensures { result ≡ goes_behind columns.now self.now }
    {
        match self.rows.first() {
            Some(row) => row.first_free(columns).is_none(),
            None => false,
        }
    }

    /// Whether the first row has a predicate.
    pub(crate) fn has_in_first(&self, pred: u32) -> bool
        requires { 1 ≤ pred }
        ensures { result ≡ is_some (find_in_row pred (first_row self.now)) }
    {
        match self.rows.first() {
            Some(row) => row.find(pred).is_some(),
            None => false,
        }
    }

    /// Puts a pair that isn't there into the first row that has a free one of the columns, or into a new
    /// last row.
    pub(crate) fn place_new(
        &mut self,
        alloc: Global,
        width: usize,
        columns: &[u32],
        pred: u32,
        value: Value,
    ) -> Result<(), AllocError>
        requires some { 0 < length columns.now }
        requires low { 1 ≤ pred }
        requires small { IsTrue (is_small value) }
        ensures ok { OnOk result (self.new ≡ place_new width columns.now (record { pred = pred; value = value }) self.old) }
        ensures err { OnErr result (self.new ≡ self.old) }
    {
        for at in 0..self.rows.len() {
            if let Some(column) = self.rows[at].first_free(columns) {
                self.rows[at].put(column, pred, value);
                return Ok(());
            }
        }
        if self.rows.len() >= MOST_ROWS {
            return Err(AllocError);
        }
        let mut row = Row::free(alloc, width)?;
        row.put(columns[0], pred, value);
        self.rows.push(row)?;
        Ok(())
    }

    /// Puts another value, or none, in place of what stands under a predicate, and drops a row that becomes
    /// empty.
    pub(crate) fn write(&mut self, pred: u32, value: Option<Value>)
        requires low { 1 ≤ pred }
        requires small { IsTrue (is_small_if value) }
        ensures { self.new ≡ write pred (pair_with pred value) self.old }
    {
        for at in 0..self.rows.len() {
            if self.rows[at].find(pred).is_some() {
                self.rows[at].write(pred, value);
                if self.rows[at].is_free() {
                    self.rows.remove(at);
                }
                return;
            }
        }
    }
}
