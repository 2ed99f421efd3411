//! The rows of all entities, with what is counted of them.

ghost use Rattle.std.specs.Prelude.{◌≡◌, ◌≤◌, ◌<◌, ◌^◌, ◌+◌, ◌-◌, ◌==◌, ◌++◌, ℕ, [], length, map, IfOk, nat_eq, nat_lt, is_some, if◌then◌else◌, true, false, IsTrue, IsSome, IfSome, OnOk, OnErr, None, Some};
ghost use Rattle.std.specs.Ordering.{nat_cmp};
ghost use Rattle.std.specs.BTreeMap.{get, is_at};
ghost use Rattle.std.specs.Map.{set_value, remove_entry};
ghost use Rattle.bags.specs.Bag.{total};
ghost use Rattle.layout_meaning.specs.Side.{find, find_in_row, write, place_new, first_of, rows_of, with_rows};
ghost use Rattle.layout_meaning.specs.Sound.{one_if, has_pred};
ghost use Rattle.std.specs.List.Sorted.{IsStrictlySortedBy};
ghost use Rattle.std.specs.Map.{keys_of};
ghost use Rattle.primary_rows.specs.Views.{seen_row};
ghost use Rattle.layout_meaning.specs.Rows.{numbered_rows, rows_from, is_spilled, row_total, IsCountOf};
ghost use Rattle.primary_rows.specs.Cells.{is_small, is_small_if, pair_of, pair_with};
ghost use Rattle.primary_rows.specs.Places.{opens, goes_behind, first_row, gone};
ghost use Rattle.primary_rows.specs.Counted.{count_in};
ghost use Rattle.primary_rows.specs.Held.{IsThere, pair_count};
ghost use Rattle.std.specs.List.{AllByRecursion};
ghost use Rattle.layout_meaning.specs.Sound.{IsSoundList};
ghost use Rattle.layout_bulk_meaning.specs.Appended.{given_entities, named_lists, with_lists, IsAbove};

use crate::append::move_entities;
use crate::cells::Pair;
use crate::counts::SpillCounts;
use crate::rows::EntityRows;
use crate::values::rows_count;
use crate::views::RowView;
use layout_meaning::Value;
use std::alloc::{AllocError, Global};
use std::collections::BTreeMap;
use std::marker::Model;
use value_lists::Lists;

/// The rows of all entities, which contracts see as pairs of an entity and its rows, by rising entity.
#[derive(Drop)]
pub(crate) struct Table {
    entities: BTreeMap<u32, EntityRows>,
    rows: u64,
    spilled: SpillCounts,
}

impl Model for Table {
    ghost use Rattle.layout_meaning.specs.Side.{Entities};
    ghost use Rattle.primary_rows.specs.Counted.{AreCounted};

    ghost Value = { Entities };

    ghost view = { λ t. t.entities.entries };

    ghost invariant = { λ t. AreCounted t.entities.entries t.rows t.spilled };
}

impl Table {
    pub(crate) fn new(alloc: Global) -> Table
        ensures { result ≡ [] }
    {
        Table {
            entities: BTreeMap::new(alloc),
            rows: 0,
            spilled: SpillCounts::new(alloc),
        }
    }

    /// How many entities there are.
    pub(crate) fn entity_count(&self) -> u64
        ensures { result ≡ length self.now }
    {
        self.entities.len() as u64
    }

    pub(crate) fn row_count(&self) -> u64
        ensures { result ≡ row_total self.now }
    {
        self.rows
    }

    pub(crate) fn is_spilled(&self, pred: u32) -> bool
        ensures { result ≡ is_spilled pred self.now }
    {
        self.spilled.has(pred)
    }

    pub(crate) fn spilled_count(&self) -> u64
        ensures { IsCountOf (λ p. is_spilled p self.now) result }
    {
        self.spilled.len()
    }

    /// The rows, by rising entity, then by their numbers.
    pub(crate) fn views(&self, alloc: Global) -> Result<Vec<RowView<'_>>, AllocError>
        ensures rows { IfOk result (λ rows. map seen_row rows.items ≡ numbered_rows self.now) }
        ensures rising { IsStrictlySortedBy nat_cmp (keys_of self.now) }
    {
        let mut views = Vec::new(alloc);
        for (entity, rows) in &self.entities {
            push_views(&mut views, *entity, rows)?;
        }
        Ok(views)
    }

    /// The rows of both, where each later entity is above all others. The later rows are moved, and their lists
    /// are copied under the next numbers.
    pub(crate) fn append(
        self,
        alloc: Global,
        later: Table,
        from: &Lists,
        to: &mut Lists,
    ) -> Result<Table, AllocError>
        requires above { IsAbove self later }
        requires good { AllByRecursion IsSoundList (named_lists from.now.lists later) }
        ensures table { IfOk result (λ table. table ≡ self ++ given_entities to.old.next later) }
        ensures lists { OnOk result (to.new ≡ with_lists to.old (named_lists from.now.lists later)) }
    {
        let Table {
            mut entities,
            rows,
            mut spilled,
        } = self;
        let Table {
            entities: later_entities,
            rows: later_rows,
            spilled: later_spilled,
        } = later;
        let Some(rows) = rows.checked_add(later_rows) else {
            return Err(AllocError);
        };
        spilled.add(&later_spilled)?;
        move_entities(&mut entities, alloc, later_entities, from, to)?;
        Ok(Table {
            entities,
            rows,
            spilled,
        })
    }

    /// What stands under a predicate of an entity.
    pub(crate) fn find(&self, entity: u32, pred: u32) -> Option<Value>
        requires { 1 ≤ pred }
        ensures { result ≡ find pred (rows_of self.now entity) }
    {
        match self.entities.get(&entity) {
            Some(rows) => rows.find(pred),
            None => None,
        }
    }

    /// How many values an entity holds, each element of a list counted.
    pub(crate) fn values_of(&self, lists: &Lists, entity: u32) -> u64
        requires there { AllByRecursion (AllByRecursion (IsThere lists.now.lists)) (rows_of self.now entity) }
        requires few { total (total (pair_count lists.now.lists)) (rows_of self.now entity) < 2 ^ 64 }
        ensures { result ≡ total (total (pair_count lists.now.lists)) (rows_of self.now entity) }
    {
        match self.entities.get(&entity) {
            Some(rows) => rows_count(lists, rows),
            None => 0,
        }
    }

    /// Puts a pair that isn't there into the first row of its entity that has a free one of the columns, or
    /// into a new last row.
    pub(crate) fn place(
        &mut self,
        alloc: Global,
        width: usize,
        columns: &[u32],
        entity: u32,
        pred: u32,
        value: Value,
    ) -> Result<(), AllocError>
        requires some { 0 < length columns.now }
        requires within { first_of columns.now < width }
        requires low { 1 ≤ pred }
        requires small { IsTrue (is_small value) }
        ensures ok { OnOk result (self.new ≡ with_rows self.old entity (place_new width columns.now (record { pred = pred; value = value }) (rows_of self.old entity))) }
        ensures err { OnErr result (self.new ≡ self.old) }
    {
        let (there, opens, behind) = stand(&self.entities, entity, columns);
        let Some(rows) = more_rows(self.rows, opens) else {
            return Err(AllocError);
        };
        note(&mut self.spilled, behind, pred)?;
        let Ok(()) = put(
            &mut self.entities,
            alloc,
            width,
            columns,
            there,
            entity,
            pred,
            value,
        ) else {
            forget(&mut self.spilled, behind, pred);
            return Err(AllocError);
        };
        self.rows = rows;
        Ok(())
    }

    /// Puts another value in place of what stands under a predicate.
    pub(crate) fn rewrite(&mut self, entity: u32, pred: u32, value: Value)
        requires low { 1 ≤ pred }
        requires small { IsTrue (is_small value) }
        requires there { IsSome (find pred (rows_of self.old entity)) }
        ensures { self.new ≡ with_rows self.old entity (write pred (Some (record { pred = pred; value = value })) (rows_of self.old entity)) }
    {
        write(&mut self.entities, entity, pred, Some(value));
        drop_empty(&mut self.entities, entity);
    }

    /// Takes out what stands under a predicate. It takes no memory.
    pub(crate) fn clear(&mut self, entity: u32, pred: u32)
        requires low { 1 ≤ pred }
        requires there { IsSome (find pred (rows_of self.old entity)) }
        ensures { self.new ≡ with_rows self.old entity (write pred None (rows_of self.old entity)) }
    {
        let first = is_in_first(&self.entities, entity, pred);
        let dropped = write(&mut self.entities, entity, pred, None);
        settle(
            &mut self.spilled,
            &self.entities,
            entity,
            pred,
            first,
            dropped,
        );
        self.rows = fewer_rows(self.rows, dropped);
        drop_empty(&mut self.entities, entity);
    }
}

/// Puts the rows of an entity behind others.
fn push_views<'a>(
    views: &mut Vec<RowView<'a>>,
    entity: u32,
    rows: &'a EntityRows,
) -> Result<(), AllocError>
    ensures { OnOk result (map seen_row views.new.items ≡ map seen_row views.old.items ++ rows_from entity 0 rows.now) }
{
    let rows = rows.as_slice();
    for number in 0..rows.len() {
        views.push(RowView {
            entity,
            spill: number as u32,
            cells: rows[number].cells(),
        })?;
    }
    Ok(())
}

/// One more row, if there is to be one; none where the count is at its end.
fn more_rows(rows: u64, opens: bool) -> Option<u64>
    ensures { IfSome result (λ more. more ≡ rows + one_if opens) }
{
    if opens {
        rows.checked_add(1)
    } else {
        Some(rows)
    }
}

fn fewer_rows(rows: u64, dropped: bool) -> u64
    requires { one_if dropped ≤ rows }
    ensures { result + one_if dropped ≡ rows }
{
    if dropped { rows - 1 } else { rows }
}

/// Whether an entity is there, whether a pair with these candidates needs a new row of it, and whether the pair
/// comes behind its first row.
fn stand(entities: &BTreeMap<u32, EntityRows>, entity: u32, columns: &[u32]) -> (bool, bool, bool)
    ensures there { result.0 ≡ is_some (get nat_cmp entities.now entity) }
    ensures opens { result.1 ≡ opens columns.now (rows_of entities.now.entries entity) }
    ensures behind { result.2 ≡ goes_behind columns.now (rows_of entities.now.entries entity) }
{
    match entities.get(&entity) {
        Some(rows) => (true, rows.opens(columns), rows.goes_behind(columns)),
        None => (false, true, false),
    }
}

fn is_in_first(entities: &BTreeMap<u32, EntityRows>, entity: u32, pred: u32) -> bool
    requires { 1 ≤ pred }
    ensures { result ≡ is_some (find_in_row pred (first_row (rows_of entities.now.entries entity))) }
{
    match entities.get(&entity) {
        Some(rows) => rows.has_in_first(pred),
        None => false,
    }
}

/// Counts a predicate that comes behind a first row.
fn note(spilled: &mut SpillCounts, behind: bool, pred: u32) -> Result<(), AllocError>
    ensures ok { OnOk result ((q : ℕ) → count_in spilled.new q ≡ count_in spilled.old q + (if behind then one_if (pred == q) else 0)) }
    ensures err { OnErr result ((q : ℕ) → count_in spilled.new q ≡ count_in spilled.old q) }
{
    if behind { spilled.raise(pred) } else { Ok(()) }
}

/// Takes such a count back.
fn forget(spilled: &mut SpillCounts, behind: bool, pred: u32)
    ensures { (q : ℕ) → count_in spilled.new q ≡ count_in spilled.old q - (if behind then one_if (pred == q) else 0) }
{
    if behind {
        spilled.lower(pred);
    }
}

/// Takes away the counts of what went from behind the first row: a pair, or, where the first row was
/// dropped, the pairs of the row that is first now.
fn settle(
    spilled: &mut SpillCounts,
    entities: &BTreeMap<u32, EntityRows>,
    entity: u32,
    pred: u32,
    first: bool,
    dropped: bool,
)
    ensures { (q : ℕ) → count_in spilled.new q ≡ count_in spilled.old q - gone pred first dropped (rows_of entities.now.entries entity) q }
{
    if !first {
        spilled.lower(pred);
    } else if dropped {
        if let Some(rows) = entities.get(&entity) {
            lower_first(spilled, rows);
        }
    }
}

/// Takes away the counts of the pairs of a first row.
fn lower_first(spilled: &mut SpillCounts, rows: &EntityRows)
    ensures { (q : ℕ) → count_in spilled.new q ≡ count_in spilled.old q - total (has_pred q) (first_row rows.now) }
{
    if let Some(row) = rows.as_slice().first() {
        for pair in row.cells() {
            lower_pair(spilled, *pair);
        }
    }
}

fn lower_pair(spilled: &mut SpillCounts, pair: Pair)
    ensures { (q : ℕ) → count_in spilled.new q ≡ count_in spilled.old q - has_pred q (pair_of pair) }
{
    if pair.pred != 0 {
        spilled.lower(pair.pred);
    }
}

/// Puts a pair that isn't there into the rows of an entity that is there.
#[tactic(auto, using(std::proofs::lemmas::Map::Steps::set_value_same))]
fn put_into(
    entities: &mut BTreeMap<u32, EntityRows>,
    alloc: Global,
    width: usize,
    columns: &[u32],
    entity: u32,
    pred: u32,
    value: Value,
) -> Result<(), AllocError>
    requires some { 0 < length columns.now }
    requires low { 1 ≤ pred }
    requires small { IsTrue (is_small value) }
    requires there { IsSome (get nat_cmp entities.old entity) }
    ensures ok { OnOk result (entities.new.entries ≡ set_value (is_at (nat_cmp entity)) entities.old.entries (place_new width columns.now (record { pred = pred; value = value }) (rows_of entities.old.entries entity))) }
    ensures err { OnErr result (entities.new.entries ≡ entities.old.entries) }
{
    let rows = entities.get_mut(&entity).unwrap();
    rows.place_new(alloc, width, columns, pred, value)
}

/// Puts a pair that isn't there into the rows of an entity, which is there or isn't.
fn put(
    entities: &mut BTreeMap<u32, EntityRows>,
    alloc: Global,
    width: usize,
    columns: &[u32],
    there: bool,
    entity: u32,
    pred: u32,
    value: Value,
) -> Result<(), AllocError>
    requires some { 0 < length columns.now }
    requires low { 1 ≤ pred }
    requires small { IsTrue (is_small value) }
    requires there { there ≡ is_some (get nat_cmp entities.old entity) }
    ensures ok { OnOk result (entities.new.entries ≡ with_rows entities.old.entries entity (place_new width columns.now (record { pred = pred; value = value }) (rows_of entities.old.entries entity))) }
    ensures err { OnErr result (entities.new.entries ≡ entities.old.entries) }
{
    if there {
        return put_into(entities, alloc, width, columns, entity, pred, value);
    }
    let mut rows = EntityRows::new(alloc)?;
    rows.place_new(alloc, width, columns, pred, value)?;
    let Ok(_old) = entities.insert(entity, rows) else {
        return Err(AllocError);
    };
    Ok(())
}

/// Puts another value, or none, in place of what stands under a predicate, and says whether a row was
/// dropped.
fn write(
    entities: &mut BTreeMap<u32, EntityRows>,
    entity: u32,
    pred: u32,
    value: Option<Value>,
) -> bool
    requires low { 1 ≤ pred }
    requires small { IsTrue (is_small_if value) }
    requires there { IsSome (get nat_cmp entities.old entity) }
    ensures dropped { result ≡ nat_lt (length (write pred (pair_with pred value) (rows_of entities.old.entries entity))) (length (rows_of entities.old.entries entity)) }
    ensures rows { entities.new.entries ≡ set_value (is_at (nat_cmp entity)) entities.old.entries (write pred (pair_with pred value) (rows_of entities.old.entries entity)) }
{
    let rows = entities.get_mut(&entity).unwrap();
    let before = rows.len();
    rows.write(pred, value);
    rows.len() < before
}

fn is_empty(entities: &BTreeMap<u32, EntityRows>, entity: u32) -> bool
    ensures { result ≡ nat_eq (length (rows_of entities.now.entries entity)) 0 }
{
    match entities.get(&entity) {
        Some(rows) => rows.len() == 0,
        None => true,
    }
}

/// Drops an entity that has no row left.
fn drop_empty(entities: &mut BTreeMap<u32, EntityRows>, entity: u32)
    ensures { entities.new.entries ≡ (if nat_eq (length (rows_of entities.old.entries entity)) 0 then remove_entry (is_at (nat_cmp entity)) entities.old.entries else entities.old.entries) }
{
    if is_empty(entities, entity) {
        entities.remove(&entity);
    }
}
