//! Cells of rows.

ghost use Rattle.std.specs.Prelude.{◌≡◌, ◌==◌, ◌≤◌, ◌<◌, IfOk, Option, None, Some, IsTrue, map, replicate, length, get_or};
ghost use Rattle.std.specs.List.{list_all};
ghost use Rattle.layout_meaning.specs.Side.{is_pred, is_none, find_in_row, write_in_row, all_free, free_at, put_at, first_free};
ghost use Rattle.primary_rows.specs.Cells.{value_of, fits, fits_cell, pair_of, pair_with, is_small, is_small_if};

use layout_meaning::Value;
use std::alloc::{AllocError, Global};
use std::marker::Model;

/// A pair of cells: a predicate, and a value by its id or a list by its negative id; both are 0 where the
/// pair is free.
#[derive(Clone, Copy, Debug, PartialEq, Eq)]
pub struct Pair {
    pub pred: u32,
    pub value: i64,
}

/// A row, which contracts see as the list of its pairs.
#[derive(Drop)]
pub(crate) struct Row {
    pairs: Vec<Pair>,
}

impl Model for Row {
    ghost use Rattle.std.specs.Prelude.{map, IsTrue};
    ghost use Rattle.std.specs.List.{list_all};
    ghost use Rattle.layout_meaning.specs.Side.{Row as PairsOf};
    ghost use Rattle.primary_rows.specs.Cells.{pair_of, fits};

    ghost Value = { PairsOf };

    ghost view = { λ r. map pair_of r.pairs.items };

    ghost invariant = { λ r. IsTrue (list_all fits r.pairs.items) };
}

/// What stands in a pair that isn't free.
pub(crate) fn value_in(pair: Pair) -> Value
    requires filled { 1 ≤ pair.pred }
    requires fits { IsTrue (fits pair) }
    ensures { result ≡ value_of pair.value }
{
    if pair.value < 0 {
        Value::Many((-1 - pair.value) as u64)
    } else {
        Value::One(pair.value as u32)
    }
}

/// The cell of a value.
fn cell_of(value: Value) -> i64
    requires { IsTrue (is_small value) }
    ensures back { value_of result ≡ value }
    ensures fits { IsTrue (fits_cell result) }
{
    match value {
        Value::One(id) => i64::from(id),
        Value::Many(number) => -1 - number as i64,
    }
}

/// A pair with this predicate and value.
pub(crate) fn filled(pred: u32, value: Value) -> Pair
    requires low { 1 ≤ pred }
    requires small { IsTrue (is_small value) }
    ensures pair { pair_of result ≡ Some (record { pred = pred; value = value }) }
    ensures fits { IsTrue (fits result) }
{
    Pair {
        pred,
        value: cell_of(value),
    }
}

/// A free pair, or one with this predicate and value.
fn pair_with(pred: u32, value: Option<Value>) -> Pair
    requires low { 1 ≤ pred }
    requires small { IsTrue (is_small_if value) }
    ensures pair { pair_of result ≡ pair_with pred value }
    ensures fits { IsTrue (fits result) }
{
    match value {
        Some(value) => filled(pred, value),
        None => Pair { pred: 0, value: 0 },
    }
}

fn is_free(pair: Pair) -> bool
    ensures { result ≡ is_none (pair_of pair) }
{
    pair.pred == 0
}

fn has(pair: Pair, pred: u32) -> bool
    requires { 1 ≤ pred }
    ensures value { result ≡ is_pred pred (pair_of pair) }
    ensures pred { result ≡ (pair.pred == pred) }
{
    pair.pred == pred
}

impl Row {
    /// A row of free pairs.
    pub(crate) fn free(alloc: Global, width: usize) -> Result<Row, AllocError>
        ensures { IfOk result (λ r. r ≡ replicate width None) }
    {
        let pairs = vec![in alloc; Pair { pred: 0, value: 0 }; width]?;
        Ok(Row { pairs })
    }

    pub(crate) fn cells(&self) -> &[Pair]
        ensures { map pair_of result.now ≡ self.now }
    {
        self.pairs.as_slice()
    }

    /// The cells, with what is known of each pair.
    pub(crate) fn pairs(&self) -> &[Pair]
        ensures value { map pair_of result.now ≡ self.now }
        ensures fits { IsTrue (list_all fits result.now) }
    {
        self.pairs.as_slice()
    }

    /// How many columns there are.
    pub(crate) fn width(&self) -> usize
        ensures { result ≡ length self.now }
    {
        self.pairs.len()
    }

    /// The pair in a column.
    pub(crate) fn pair(&self, column: usize) -> Pair
        requires { column < length self.now }
        ensures value { pair_of result ≡ get_or self.now column (pair_of result) }
        ensures fits { IsTrue (fits result) }
    {
        self.pairs[column]
    }

    /// Puts a pair into a column.
    pub(crate) fn set(&mut self, column: usize, pair: Pair)
        requires within { column < length self.old }
        requires fits { IsTrue (fits pair) }
        ensures { self.new ≡ put_at self.old column (pair_of pair) }
    {
        self.pairs[column] = pair;
    }

    /// What stands under a predicate.
    pub(crate) fn find(&self, pred: u32) -> Option<Value>
        requires { 1 ≤ pred }
        ensures { result ≡ find_in_row pred self.now }
    {
        for pair in self.pairs.as_slice() {
            if has(*pair, pred) {
                return Some(value_in(*pair));
            }
        }
        None
    }

    pub(crate) fn is_free(&self) -> bool
        ensures { result ≡ all_free self.now }
    {
        for pair in self.pairs.as_slice() {
            if !is_free(*pair) {
                return false;
            }
        }
        true
    }

    /// Whether a column is there and free.
    fn is_free_at(&self, column: usize) -> bool
        ensures { result ≡ free_at self.now column }
    {
        column < self.pairs.len() && is_free(self.pairs[column])
    }

    /// The first of the columns that is free.
    pub(crate) fn first_free(&self, columns: &[u32]) -> Option<u32>
        ensures { result ≡ first_free self.now columns.now }
    {
        for column in columns {
            if self.is_free_at(*column as usize) {
                return Some(*column);
            }
        }
        None
    }

    /// Puts a predicate and its value into a column.
    pub(crate) fn put(&mut self, column: u32, pred: u32, value: Value)
        requires low { 1 ≤ pred }
        requires small { IsTrue (is_small value) }
        ensures { self.new ≡ put_at self.old column (Some (record { pred = pred; value = value })) }
    {
        let column = column as usize;
        if column < self.pairs.len() {
            self.pairs[column] = filled(pred, value);
        }
    }

    /// Puts another value, or none, in place of what stands under a predicate.
    pub(crate) fn write(&mut self, pred: u32, value: Option<Value>)
        requires low { 1 ≤ pred }
        requires small { IsTrue (is_small_if value) }
        ensures { self.new ≡ write_in_row pred (pair_with pred value) self.old }
    {
        for at in 0..self.pairs.len() {
            if has(self.pairs[at], pred) {
                self.pairs[at] = pair_with(pred, value);
                return;
            }
        }
    }
}
