//! How many values an entity holds.

ghost use Rattle.std.specs.Prelude.{◌≡◌, ◌<◌, ◌^◌, length, IsTrue};
ghost use Rattle.std.specs.List.{AllByRecursion};
ghost use Rattle.bags.specs.Bag.{total};
ghost use Rattle.layout_meaning.specs.Side.{values_of};
ghost use Rattle.primary_rows.specs.Cells.{pair_of, fits};
ghost use Rattle.primary_rows.specs.Held.{IsThere, HasList, pair_count};

use crate::cells::{Pair, Row, value_in};
use crate::rows::EntityRows;
use layout_meaning::Value;
use value_lists::Lists;

fn value_count(lists: &Lists, value: Value) -> u64
    requires { HasList lists.now.lists value }
    ensures { result ≡ length (values_of lists.now.lists value) }
{
    match value {
        Value::One(_) => 1,
        Value::Many(number) => lists.elements_in(number).len() as u64,
    }
}

fn pair_count(lists: &Lists, pair: Pair) -> u64
    requires fits { IsTrue (fits pair) }
    requires there { IsThere lists.now.lists (pair_of pair) }
    ensures { result ≡ pair_count lists.now.lists (pair_of pair) }
{
    if pair.pred == 0 {
        return 0;
    }
    value_count(lists, value_in(pair))
}

fn row_count(lists: &Lists, row: &Row) -> u64
    requires there { AllByRecursion (IsThere lists.now.lists) row.now }
    requires few { total (pair_count lists.now.lists) row.now < 2 ^ 64 }
    ensures { result ≡ total (pair_count lists.now.lists) row.now }
{
    let mut count = 0;
    for pair in row.pairs() {
        count += pair_count(lists, *pair);
    }
    count
}

/// How many values stand in rows, each element of a list counted.
pub(crate) fn rows_count(lists: &Lists, rows: &EntityRows) -> u64
    requires there { AllByRecursion (AllByRecursion (IsThere lists.now.lists)) rows.now }
    requires few { total (total (pair_count lists.now.lists)) rows.now < 2 ^ 64 }
    ensures { result ≡ total (total (pair_count lists.now.lists)) rows.now }
{
    let mut count = 0;
    for row in rows.as_slice() {
        count += row_count(lists, row);
    }
    count
}
