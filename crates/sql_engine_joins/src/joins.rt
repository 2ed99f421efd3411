//! JOIN and LEFT JOIN, one left row at a time: by an index where the join has a key, and otherwise row by row.

ghost use Rattle.std.specs.Prelude.{◌≡◌, ◌+◌, ◌∷◌, [], length, map, take, drop, slice_get, Some, IfSome, IfOk, OnOk};
ghost use Rattle.std.specs.List.{flat_map};
ghost use Rattle.sql_bind_meaning.specs.Sources.{relation_rows, with_picked, with_each, bound_where_true, bound_joined_to, bound_all_joined};
ghost use Rattle.sql_index.specs.Found.{IsIndexOf};
ghost use Rattle.sql_engine_values.specs.Places.{picked, join_numbers};
ghost use Rattle.sql_engine_joins.specs.Rows.{all_picked};
ghost use Rattle.sql_engine_joins.specs.Keys.{IsKeyOf};
ghost use Rattle.sql_engine_joins.specs.Runs.{rows_beside, IsAdded};

use crate::keys::{JoinKey, key_of};
use crate::picked_rows::PickedRows;
use rel_cells::TableSet;
use sql_bind_meaning::BoundJoin;
use sql_engine_values::{Sources, value, value_is_true};
use sql_index::Index;
use std::alloc::{AllocError, Global};

/// The key of a join, and the index of its column.
#[derive(Drop)]
struct Keyed<'a> {
    key: JoinKey<'a>,
    index: &'a Index,
}

// The key of a join whose new source has this number, where its index is kept.
fn keyed_by<'a, T: TableSet>(
    join: &'a BoundJoin,
    new: usize,
    sources: &'a Sources<'a, T>,
) -> Option<Keyed<'a>>
    ensures key { IfSome result (λ k. IsKeyOf new join.now.on k.key.column k.key.other.now) }
    ensures index { IfSome result (λ k. IsIndexOf k.index.now (relation_rows sources.now.relations join.now.relation) k.key.column) }
{
    let key = key_of(&join.on, new)?;
    let index = sources.relations().index(join.relation, key.column)?;
    Some(Keyed { key, index })
}

// Adds the left row with one row of the new source, where the condition is true.
#[tactic(auto, using(crate::proofs::Added::one_added, crate::proofs::Added::none_added))]
fn add_match<'a, T: TableSet>(
    row: usize,
    join: &'a BoundJoin,
    sources: &'a Sources<'a, T>,
    left: &mut Vec<usize>,
    into: &mut PickedRows,
) -> Result<(), AllocError>
    requires width { into.old.width ≡ length left.old.items + 1 }
    requires source { slice_get sources.now.numbers (length left.old.items) ≡ Some join.now.relation }
    ensures added { OnOk result (IsAdded sources.now into.old into.new (bound_where_true join.now.on (rows_beside (relation_rows sources.now.relations join.now.relation) (picked sources.now left.old.items) (row ∷ [])))) }
    ensures left { OnOk result (left.new.items ≡ left.old.items) }
{
    left.push(row)?;
    if value_is_true(&join.on, sources, left.as_slice()) {
        into.push(left.as_slice())?;
    }
    left.pop();
    Ok(())
}

// Adds the left row with each row of the new source for which the condition is true.
fn add_each<'a, T: TableSet>(
    join: &'a BoundJoin,
    sources: &'a Sources<'a, T>,
    left: &mut Vec<usize>,
    into: &mut PickedRows,
) -> Result<(), AllocError>
    requires width { into.old.width ≡ length left.old.items + 1 }
    requires source { slice_get sources.now.numbers (length left.old.items) ≡ Some join.now.relation }
    ensures added { OnOk result (IsAdded sources.now into.old into.new (bound_where_true join.now.on (with_each (relation_rows sources.now.relations join.now.relation) (picked sources.now left.old.items)))) }
    ensures left { OnOk result (left.new.items ≡ left.old.items) }
{
    for row in 0..sources.relations().count(join.relation) {
        add_match(row, join, sources, left, into)?;
    }
    Ok(())
}

// Adds the left row with each of these rows of the new source for which the condition is true.
fn add_some<'a, T: TableSet>(
    rows: &[usize],
    join: &'a BoundJoin,
    sources: &'a Sources<'a, T>,
    left: &mut Vec<usize>,
    into: &mut PickedRows,
) -> Result<(), AllocError>
    requires width { into.old.width ≡ length left.old.items + 1 }
    requires source { slice_get sources.now.numbers (length left.old.items) ≡ Some join.now.relation }
    ensures added { OnOk result (IsAdded sources.now into.old into.new (bound_where_true join.now.on (rows_beside (relation_rows sources.now.relations join.now.relation) (picked sources.now left.old.items) rows.now))) }
    ensures left { OnOk result (left.new.items ≡ left.old.items) }
{
    for row in rows {
        add_match(*row, join, sources, left, into)?;
    }
    Ok(())
}

// The same as `add_each`, of which only the rows that have the key are tried.
fn add_keyed<'a, T: TableSet>(
    keyed: &Keyed<'a>,
    join: &'a BoundJoin,
    sources: &'a Sources<'a, T>,
    left: &mut Vec<usize>,
    into: &mut PickedRows,
) -> Result<(), AllocError>
    requires key { IsKeyOf (length left.old.items) join.now.on keyed.now.key.column keyed.now.key.other.now }
    requires index { IsIndexOf keyed.now.index.now (relation_rows sources.now.relations join.now.relation) keyed.now.key.column }
    requires width { into.old.width ≡ length left.old.items + 1 }
    requires source { slice_get sources.now.numbers (length left.old.items) ≡ Some join.now.relation }
    ensures added { OnOk result (IsAdded sources.now into.old into.new (bound_where_true join.now.on (with_each (relation_rows sources.now.relations join.now.relation) (picked sources.now left.old.items)))) }
    ensures left { OnOk result (left.new.items ≡ left.old.items) }
{
    let cell = value(keyed.key.other, sources, left.as_slice());
    add_some(keyed.index.matches(&cell), join, sources, left, into)
}

// Adds the left row with each row of the new source for which the condition is true.
fn add_found<'a, T: TableSet>(
    keyed: &Option<Keyed<'a>>,
    join: &'a BoundJoin,
    sources: &'a Sources<'a, T>,
    left: &mut Vec<usize>,
    into: &mut PickedRows,
) -> Result<(), AllocError>
    requires key { IfSome keyed.now (λ k. IsKeyOf (length left.old.items) join.now.on k.key.column k.key.other.now) }
    requires index { IfSome keyed.now (λ k. IsIndexOf k.index.now (relation_rows sources.now.relations join.now.relation) k.key.column) }
    requires width { into.old.width ≡ length left.old.items + 1 }
    requires source { slice_get sources.now.numbers (length left.old.items) ≡ Some join.now.relation }
    ensures added { OnOk result (IsAdded sources.now into.old into.new (bound_where_true join.now.on (with_each (relation_rows sources.now.relations join.now.relation) (picked sources.now left.old.items)))) }
    ensures left { OnOk result (left.new.items ≡ left.old.items) }
{
    match keyed {
        Some(keyed) => add_keyed(keyed, join, sources, left, into),
        None => add_each(join, sources, left, into),
    }
}

// Adds the left row with the row without cells.
#[tactic(auto, using(crate::proofs::Added::empty_added))]
fn add_alone<'a, T: TableSet>(
    join: &'a BoundJoin,
    sources: &'a Sources<'a, T>,
    left: &mut Vec<usize>,
    into: &mut PickedRows,
) -> Result<(), AllocError>
    requires width { into.old.width ≡ length left.old.items + 1 }
    requires source { slice_get sources.now.numbers (length left.old.items) ≡ Some join.now.relation }
    ensures added { OnOk result (IsAdded sources.now into.old into.new (with_picked (picked sources.now left.old.items) [] ∷ [])) }
    ensures left { OnOk result (left.new.items ≡ left.old.items) }
{
    left.push(sources.relations().count(join.relation))?;
    into.push(left.as_slice())?;
    left.pop();
    Ok(())
}

// Adds what the join gives for one left row.
#[tactic(auto, using(crate::proofs::Added::found_some, crate::proofs::Added::found_none))]
fn add_joined<'a, T: TableSet>(
    keyed: &Option<Keyed<'a>>,
    join: &'a BoundJoin,
    sources: &'a Sources<'a, T>,
    left: &mut Vec<usize>,
    into: &mut PickedRows,
) -> Result<(), AllocError>
    requires key { IfSome keyed.now (λ k. IsKeyOf (length left.old.items) join.now.on k.key.column k.key.other.now) }
    requires index { IfSome keyed.now (λ k. IsIndexOf k.index.now (relation_rows sources.now.relations join.now.relation) k.key.column) }
    requires width { into.old.width ≡ length left.old.items + 1 }
    requires source { slice_get sources.now.numbers (length left.old.items) ≡ Some join.now.relation }
    ensures added { OnOk result (IsAdded sources.now into.old into.new (bound_joined_to sources.now.relations join.now (picked sources.now left.old.items))) }
    ensures left { OnOk result (left.new.items ≡ left.old.items) }
{
    let before = into.count();
    add_found(keyed, join, sources, left, into)?;
    if join.left && into.count() == before {
        add_alone(join, sources, left, into)?;
    }
    Ok(())
}

// The rows of all left rows.
fn joined<'a, T: TableSet>(
    alloc: Global,
    join: &'a BoundJoin,
    sources: &'a Sources<'a, T>,
    lefts: &PickedRows,
) -> Result<PickedRows, AllocError>
    requires { slice_get sources.now.numbers lefts.now.width ≡ Some join.now.relation }
    ensures width { IfOk result (λ joined. joined.width ≡ lefts.now.width + 1) }
    ensures rows { IfOk result (λ joined. all_picked sources.now joined ≡ flat_map (bound_joined_to sources.now.relations join.now) (all_picked sources.now lefts.now)) }
{
    let keyed = keyed_by(join, lefts.width(), sources);
    let mut left = Vec::with_capacity(alloc, sources.count())?;
    let mut joined = PickedRows::new(alloc, lefts.width() + 1);
    for at in 0..lefts.count() {
        left.clear();
        left.extend_from_slice(lefts.row(at))?;
        add_joined(&keyed, join, sources, &mut left, &mut joined)?;
    }
    Ok(joined)
}

/// The rows of the joins, over those of FROM.
#[tactic(auto, using(crate::proofs::Added::next_source))]
pub(crate) fn all_joined<'a, T: TableSet>(
    alloc: Global,
    joins: &'a [BoundJoin],
    sources: &'a Sources<'a, T>,
    first: PickedRows,
) -> Result<PickedRows, AllocError>
    requires { drop first.width sources.now.numbers ≡ join_numbers joins.now }
    ensures width { IfOk result (λ rows. rows.width ≡ first.width + length joins.now) }
    ensures rows { IfOk result (λ rows. all_picked sources.now rows ≡ bound_all_joined sources.now.relations joins.now (all_picked sources.now first)) }
{
    let mut rows = first;
    for join in joins {
        rows = joined(alloc, join, sources, &rows)?;
    }
    Ok(rows)
}
