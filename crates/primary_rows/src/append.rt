//! Rows of a later side, moved behind those of a side, and its lists under the next ids.

ghost use Rattle.std.specs.Prelude.{◌≡◌, ◌<◌, ◌+◌, ◌++◌, ◌^◌, IfOk, OnOk, IsTrue};
ghost use Rattle.std.specs.List.{flat_map, AllByRecursion};
ghost use Rattle.layout_meaning.specs.Lists.{with_list};
ghost use Rattle.layout_meaning.specs.Sound.{IsSoundList};
ghost use Rattle.layout_bulk_meaning.specs.Appended.{given_value, given_pair, given_row, given_rows, given_entities, named_by_value, named_by, named_in_rows, named_lists, with_lists, IsAbove};
ghost use Rattle.primary_rows.specs.Cells.{pair_of, fits, is_small};

use crate::cells::{Pair, Row, filled, value_in};
use crate::rows::EntityRows;
use crate::side::start;
use layout_meaning::Value;
use std::alloc::{AllocError, Global};
use std::collections::BTreeMap;
use value_lists::Lists;

/// Makes an equal list under the next number, and gives this number.
fn copy_list(alloc: Global, to: &mut Lists, values: &[u32]) -> Result<u64, AllocError>
    requires { IsSoundList values.now }
    ensures number { IfOk result (λ n. n ≡ to.old.next) }
    ensures small { IfOk result (λ n. n < 2 ^ 62) }
    ensures lists { OnOk result (to.new ≡ with_list to.old values.now) }
{
    // What is known of lists is told by a call.
    let _count = to.count();
    let Ok(number) = start(to, alloc, values[0], values[1]) else {
        return Err(AllocError);
    };
    for at in 2..values.len() {
        to.add_to(alloc, number, values[at])?;
    }
    Ok(number)
}

/// A value, whose list is copied if it is one.
fn moved_value(
    alloc: Global,
    value: Value,
    from: &Lists,
    to: &mut Lists,
) -> Result<Value, AllocError>
    requires { AllByRecursion IsSoundList (named_by_value from.now.lists value) }
    ensures value { IfOk result (λ moved. moved ≡ given_value to.old.next value) }
    ensures small { IfOk result (λ moved. IsTrue (is_small moved)) }
    ensures lists { OnOk result (to.new ≡ with_lists to.old (named_by_value from.now.lists value)) }
{
    match value {
        Value::One(id) => Ok(Value::One(id)),
        Value::Many(number) => {
            let number = copy_list(alloc, to, from.elements_in(number))?;
            Ok(Value::Many(number))
        }
    }
}

fn moved_pair(alloc: Global, pair: Pair, from: &Lists, to: &mut Lists) -> Result<Pair, AllocError>
    requires fits { IsTrue (fits pair) }
    requires good { AllByRecursion IsSoundList (named_by from.now.lists (pair_of pair)) }
    ensures pair { IfOk result (λ moved. pair_of moved ≡ given_pair to.old.next (pair_of pair)) }
    ensures fits { IfOk result (λ moved. IsTrue (fits moved)) }
    ensures lists { OnOk result (to.new ≡ with_lists to.old (named_by from.now.lists (pair_of pair))) }
{
    if pair.pred == 0 {
        return Ok(pair);
    }
    let value = moved_value(alloc, value_in(pair), from, to)?;
    Ok(filled(pair.pred, value))
}

/// Gives the lists of a row the next numbers.
fn renumber_row(
    alloc: Global,
    row: &mut Row,
    from: &Lists,
    to: &mut Lists,
) -> Result<(), AllocError>
    requires { AllByRecursion IsSoundList (flat_map (named_by from.now.lists) row.old) }
    ensures row { OnOk result (row.new ≡ given_row to.old.next row.old) }
    ensures lists { OnOk result (to.new ≡ with_lists to.old (flat_map (named_by from.now.lists) row.old)) }
{
    for at in 0..row.width() {
        let moved = moved_pair(alloc, row.pair(at), from, to)?;
        row.set(at, moved);
    }
    Ok(())
}

fn moved_rows(
    alloc: Global,
    rows: EntityRows,
    from: &Lists,
    to: &mut Lists,
) -> Result<EntityRows, AllocError>
    requires { AllByRecursion IsSoundList (named_in_rows from.now.lists rows) }
    ensures rows { IfOk result (λ moved. moved ≡ given_rows to.old.next rows) }
    ensures lists { OnOk result (to.new ≡ with_lists to.old (named_in_rows from.now.lists rows)) }
{
    let mut rows = rows.into_rows();
    for at in 0..rows.len() {
        renumber_row(alloc, &mut rows[at], from, to)?;
    }
    Ok(EntityRows::of(rows))
}

/// Moves later entities behind others.
pub(crate) fn move_entities(
    entities: &mut BTreeMap<u32, EntityRows>,
    alloc: Global,
    later: BTreeMap<u32, EntityRows>,
    from: &Lists,
    to: &mut Lists,
) -> Result<(), AllocError>
    requires above { IsAbove entities.old.entries later.entries }
    requires good { AllByRecursion IsSoundList (named_lists from.now.lists later.entries) }
    ensures entities { OnOk result (entities.new.entries ≡ entities.old.entries ++ given_entities to.old.next later.entries) }
    ensures lists { OnOk result (to.new ≡ with_lists to.old (named_lists from.now.lists later.entries)) }
{
    for (entity, rows) in later {
        let moved = moved_rows(alloc, rows, from, to)?;
        let Ok(_old) = entities.insert(entity, moved) else {
            return Err(AllocError);
        };
    }
    Ok(())
}
