//! One side: its rows, its lists and its columns.

ghost use Rattle.std.specs.Prelude.{◌≡◌, ◌≤◌, ◌<◌, ◌+◌, ◌^◌, ◌∷◌, [], ℕ, List, length, map, nat_eq, true, false, IfOk, OnOk, OnErr, Some, None, Err};
ghost use Rattle.std.specs.List.{list_any};
ghost use Rattle.layout_meaning.specs.declared.value.Value.TheVariants.{One};
ghost use Rattle.std.specs.Set.{remove_key};
ghost use Rattle.std.specs.List.Sorted.{IsStrictlySortedBy};
ghost use Rattle.std.specs.Ordering.{nat_cmp};
ghost use Rattle.std.specs.Map.{keys_of};
ghost use Rattle.bags.specs.Bag.{total};
ghost use Rattle.primary_rows.specs.Views.{seen_row};
ghost use Rattle.layout_meaning.specs.Side.{items, with_rows, rows_of, place_new, first_of, found_values, elements_of, only, taken, is_held};
ghost use Rattle.layout_meaning.specs.Lists.{with_list, with_value, without_value};
ghost use Rattle.layout_meaning.specs.Columns.{candidates_of};
ghost use Rattle.layout_meaning.specs.Sound.{IsSound};
ghost use Rattle.layout_meaning.specs.Rows.{numbered_rows, IsCountOf, is_spilled, items_of, row_total, placed_in, taken_from, KeepsToNames, name_in};
ghost use Rattle.value_lists.specs.Answers.{put_of, HasNumber};
ghost use Rattle.primary_rows.specs.Answers.{took_of};
ghost use Rattle.layout_bulk_meaning.specs.Appended.{appended_side, IsAbove};

use crate::table::Table;
use crate::views::RowView;
use layout_meaning::Value;
use pred_columns::Columns;
use rdf_meaning::Text;
use std::alloc::{AllocError, Global};
use std::marker::Model;
use value_lists::{ListRefusal, Lists, Put, TakeOut};

/// Why a value can't be put in.
#[derive(Clone, Copy, Debug, PartialEq, Eq)]
pub enum SideRefusal {
    /// A list is needed, and the last list id was given out.
    ListsFull,
    NoMemory,
}

impl From<AllocError> for SideRefusal {
    ghost use Rattle.std.specs.Prelude.{◌≡◌};
    ghost use Rattle.primary_rows.specs.declared.side.SideRefusal.TheVariants.{NoMemory};

    ghost from_gives = { λ _ e. e ≡ NoMemory };

    fn from(_error: AllocError) -> SideRefusal {
        SideRefusal::NoMemory
    }
}

/// Whether a value was taken out, or wasn't there.
#[derive(Clone, Copy, Debug, PartialEq, Eq)]
pub enum Took {
    Removed,
    Absent,
}

/// The rows, lists and columns of one side.
#[derive(Drop)]
pub struct Side {
    columns: Columns,
    table: Table,
    lists: Lists,
    held: u64,
}

impl Model for Side {
    ghost use Rattle.layout_meaning.specs.Rows.{SideOf};
    ghost use Rattle.primary_rows.specs.Kept.{IsSide};

    ghost Value = { SideOf };

    ghost view = { λ s. record { columns = s.columns; state = record { entities = s.table; lists = s.lists.lists; next = s.lists.next } } };

    ghost invariant = { λ s. IsSide s.columns (record { entities = s.table; lists = s.lists.lists; next = s.lists.next }) s.held };
}

impl Side {
    /// A side without rows, whose lists are to have the next ids of these, of which there are none.
    pub fn new(alloc: Global, columns: Columns, lists: Lists) -> Side
        requires { lists.lists ≡ [] }
        ensures side { result ≡ record { columns = columns; state = record { entities = []; lists = []; next = lists.next } } }
        ensures sound { IsSound result.columns.count result.state }
        ensures some { (iri : List ℕ) → 0 < length (candidates_of result.columns iri) }
        ensures first { (iri : List ℕ) → first_of (candidates_of result.columns iri) < result.columns.count }
    {
        // What is known of columns is told by a call.
        let _count = columns.count();
        Side {
            columns,
            table: Table::new(alloc),
            lists,
            held: 0,
        }
    }

    /// Puts in a value of an entity under the predicate with this IRI. After an error the side is as before.
    pub fn insert(
        &mut self,
        alloc: Global,
        entity: u32,
        pred: u32,
        iri: &Text,
        value: u32,
    ) -> Result<Put, SideRefusal>
        requires { 1 ≤ pred }
        ensures ok { OnOk result (self.new ≡ placed_in self.old iri.now (record { entity = entity; pred = pred; value = value })) }
        ensures put { IfOk result (λ put. put ≡ put_of (is_held (record { entity = entity; pred = pred; value = value }) self.old.state)) }
        ensures room { OnOk result ((placed_in self.old iri.now (record { entity = entity; pred = pred; value = value })).state.next ≤ 2 ^ 62) }
        ensures full { result ≡ Err SideRefusal.ListsFull → (placed_in self.old iri.now (record { entity = entity; pred = pred; value = value })).state.next ≡ 2 ^ 62 + 1 }
        ensures err { OnErr result (self.new ≡ self.old) }
        ensures new { OnErr result (is_held (record { entity = entity; pred = pred; value = value }) self.old.state ≡ false) }
        ensures keeps { OnOk result ((names : List (ℕ × List ℕ)) → KeepsToNames names self.old → name_in names pred ≡ Some iri.now → KeepsToNames names self.new) }
    {
        // What is known of columns is told by a call.
        let _count = self.columns.count();
        self.put_in(alloc, entity, pred, iri, value)
    }

    /// Takes out a value of an entity under a predicate. It takes no memory.
    pub fn delete(&mut self, entity: u32, pred: u32, value: u32) -> Took
        requires { 1 ≤ pred }
        ensures side { self.new ≡ taken_from self.old (record { entity = entity; pred = pred; value = value }) }
        ensures took { result ≡ took_of (is_held (record { entity = entity; pred = pred; value = value }) self.old.state) }
        ensures keeps { (names : List (ℕ × List ℕ)) → KeepsToNames names self.old → KeepsToNames names self.new }
    {
        self.take_away(entity, pred, value)
    }

    /// The rows of this side and those of a later one behind them. The later rows are as they are, but their
    /// lists have the next ids of this side, by rising entity, row number and column. Where these are at their
    /// end, the answer is want of memory.
    pub fn append(self, alloc: Global, later: Side) -> Result<Side, AllocError>
        requires same { later.columns ≡ self.columns }
        requires above { IsAbove self.state.entities later.state.entities }
        ensures side { IfOk result (λ side. side ≡ appended_side self later) }
        ensures keeps { IfOk result (λ side. (names : List (ℕ × List ℕ)) → KeepsToNames names self → KeepsToNames names later → KeepsToNames names side) }
    {
        let Side {
            columns,
            table,
            mut lists,
            held,
        } = self;
        let Side {
            columns: _columns,
            table: later_table,
            lists: later_lists,
            held: later_held,
        } = later;
        let Some(held) = held.checked_add(later_held) else {
            return Err(AllocError);
        };
        let table = table.append(alloc, later_table, &later_lists, &mut lists)?;
        // That the ids aren't used up is told by a call.
        let _next = lists.next_number();
        Ok(Side {
            columns,
            table,
            lists,
            held,
        })
    }

    fn put_in(
        &mut self,
        alloc: Global,
        entity: u32,
        pred: u32,
        iri: &Text,
        value: u32,
    ) -> Result<Put, SideRefusal>
        requires { 1 ≤ pred }
        ensures ok { OnOk result (self.new ≡ placed_in self.old iri.now (record { entity = entity; pred = pred; value = value })) }
        ensures put { IfOk result (λ put. put ≡ put_of (is_held (record { entity = entity; pred = pred; value = value }) self.old.state)) }
        ensures room { OnOk result ((placed_in self.old iri.now (record { entity = entity; pred = pred; value = value })).state.next ≤ 2 ^ 62) }
        ensures full { result ≡ Err SideRefusal.ListsFull → (placed_in self.old iri.now (record { entity = entity; pred = pred; value = value })).state.next ≡ 2 ^ 62 + 1 }
        ensures err { OnErr result (self.new ≡ self.old) }
        ensures new { OnErr result (is_held (record { entity = entity; pred = pred; value = value }) self.old.state ≡ false) }
    {
        let found = self.table.find(entity, pred);
        if holds(&self.lists, found, value) {
            return Ok(Put::There);
        }
        let Some(held) = self.held.checked_add(1) else {
            return Err(SideRefusal::NoMemory);
        };
        match found {
            None => {
                let Ok(()) = place(
                    &mut self.table,
                    &self.columns,
                    alloc,
                    entity,
                    pred,
                    iri,
                    value,
                ) else {
                    return Err(SideRefusal::NoMemory);
                };
                self.held = held;
            }
            Some(Value::One(one)) => {
                let number = start(&mut self.lists, alloc, one, value)?;
                self.table.rewrite(entity, pred, Value::Many(number));
                self.held = held;
            }
            Some(Value::Many(number)) => {
                let Ok(()) = append(&mut self.lists, alloc, number, value) else {
                    return Err(SideRefusal::NoMemory);
                };
                self.held = held;
            }
        }
        Ok(Put::Added)
    }

    fn take_away(&mut self, entity: u32, pred: u32, value: u32) -> Took
        requires { 1 ≤ pred }
        ensures side { self.new ≡ taken_from self.old (record { entity = entity; pred = pred; value = value }) }
        ensures took { result ≡ took_of (is_held (record { entity = entity; pred = pred; value = value }) self.old.state) }
    {
        let found = self.table.find(entity, pred);
        if !holds(&self.lists, found, value) {
            return Took::Absent;
        }
        self.held -= 1;
        match found {
            None => {}
            Some(Value::One(_one)) => {
                self.table.clear(entity, pred);
            }
            Some(Value::Many(number)) => match take_out(&mut self.lists, number, value) {
                Some(one) => {
                    self.table.rewrite(entity, pred, Value::One(one));
                }
                None => {}
            },
        }
        Took::Removed
    }

    /// Whether some entity holds the predicate in a row behind its first.
    pub fn spilled(&self, pred: u32) -> bool
        ensures { result ≡ is_spilled pred self.now.state.entities }
    {
        self.table.is_spilled(pred)
    }

    /// How many entities have rows.
    pub fn entity_count(&self) -> u64
        ensures { result ≡ length self.now.state.entities }
    {
        self.table.entity_count()
    }

    /// How many rows there are.
    pub fn row_count(&self) -> u64
        ensures { result ≡ row_total self.now.state.entities }
    {
        self.table.row_count()
    }

    /// How many lists there are.
    pub fn list_count(&self) -> u64
        ensures { result ≡ length self.now.state.lists }
    {
        self.lists.count()
    }

    /// For how many predicates `spilled` is true.
    pub fn spilled_count(&self) -> u64
        ensures { IsCountOf (λ p. is_spilled p self.now.state.entities) result }
    {
        self.table.spilled_count()
    }

    /// How many values an entity holds under all its predicates, each element of a list counted.
    pub fn values_of(&self, entity: u32) -> u64
        ensures { result ≡ total (λ x. 1) (items_of self.now.state entity) }
    {
        // That all values together have a count is told by a call.
        let _all = self.item_count();
        self.table.values_of(&self.lists, entity)
    }

    /// How many values all entities hold together, each element of a list counted.
    pub fn item_count(&self) -> u64
        ensures { result ≡ total (λ x. 1) (items self.now.state) }
    {
        self.held
    }

    /// The rows, by rising entity, then by their numbers.
    pub fn rows(&self, alloc: Global) -> Result<Vec<RowView<'_>>, AllocError>
        ensures rows { IfOk result (λ rows. map seen_row rows.items ≡ numbered_rows self.now.state.entities) }
        ensures rising { IsStrictlySortedBy nat_cmp (keys_of self.now.state.entities) }
        ensures sound { IsSound self.now.columns.count self.now.state }
    {
        self.table.views(alloc)
    }

    /// The lists.
    pub fn lists(&self) -> &Lists
        ensures lists { result.now.lists ≡ self.now.state.lists }
        ensures next { result.now.next ≡ self.now.state.next }
        ensures sound { IsSound self.now.columns.count self.now.state }
    {
        &self.lists
    }

    /// The columns. The first candidate of an IRI is one of them.
    pub fn columns(&self) -> &Columns
        ensures value { result.now ≡ self.now.columns }
        ensures first { (iri : List ℕ) → first_of (candidates_of self.now.columns iri) < self.now.columns.count }
    {
        &self.columns
    }

    /// Whether a value is held.
    pub fn holds(&self, entity: u32, pred: u32, value: u32) -> bool
        requires { 1 ≤ pred }
        ensures { result ≡ is_held (record { entity = entity; pred = pred; value = value }) self.now.state }
    {
        holds(&self.lists, self.table.find(entity, pred), value)
    }
}

/// Whether a value is among those that stand there.
fn holds(lists: &Lists, found: Option<Value>, value: u32) -> bool
    ensures { result ≡ list_any (nat_eq value) (found_values lists.now.lists found) }
{
    match found {
        None => false,
        Some(Value::One(one)) => value == one,
        Some(Value::Many(number)) => lists.has_in(number, value),
    }
}

/// Puts a value under a predicate that the entity hasn't got.
fn place(
    table: &mut Table,
    columns: &Columns,
    alloc: Global,
    entity: u32,
    pred: u32,
    iri: &Text,
    value: u32,
) -> Result<(), AllocError>
    requires { 1 ≤ pred }
    ensures ok { OnOk result (table.new ≡ with_rows table.old entity (place_new columns.now.count (candidates_of columns.now iri.now) (record { pred = pred; value = One value }) (rows_of table.old entity))) }
    ensures within { first_of (candidates_of columns.now iri.now) < columns.now.count }
    ensures err { OnErr result (table.new ≡ table.old) }
{
    let width = columns.count() as usize;
    let columns = columns.candidates(iri);
    table.place(
        alloc,
        width,
        columns.as_slice(),
        entity,
        pred,
        Value::One(value),
    )
}

/// Makes a list of two values, and gives its number.
pub(crate) fn start(
    lists: &mut Lists,
    alloc: Global,
    first: u32,
    second: u32,
) -> Result<u64, SideRefusal>
    requires { nat_eq second first ≡ false }
    ensures number { IfOk result (λ n. n ≡ lists.old.next) }
    ensures ok { OnOk result (lists.new ≡ with_list lists.old (first ∷ second ∷ [])) }
    ensures room { OnOk result (lists.old.next < 2 ^ 62) }
    ensures full { result ≡ Err SideRefusal.ListsFull → lists.old.next ≡ 2 ^ 62 }
    ensures err { OnErr result (lists.new ≡ lists.old) }
{
    let number = lists.next_number();
    match lists.make_two(alloc, first, second) {
        Ok(_id) => Ok(number),
        Err(ListRefusal::ListsFull) => Err(SideRefusal::ListsFull),
        Err(ListRefusal::NoMemory) => Err(SideRefusal::NoMemory),
    }
}

/// Puts a value last into a list.
fn append(lists: &mut Lists, alloc: Global, number: u64, value: u32) -> Result<(), AllocError>
    requires { HasNumber lists.old number }
    ensures ok { OnOk result (lists.new ≡ with_value lists.old number value) }
    ensures err { OnErr result (lists.new ≡ lists.old) }
{
    lists.add_to(alloc, number, value)?;
    Ok(())
}

/// Takes a value out of a list, and gives the value that stays where one does.
fn take_out(lists: &mut Lists, number: u64, value: u32) -> Option<u32>
    requires { HasNumber lists.old number }
    ensures one { list_any (nat_eq value) (elements_of lists.old.lists number) ≡ true → result ≡ only (remove_key (nat_eq value) (elements_of lists.old.lists number)) }
    ensures lists { lists.new ≡ without_value lists.old number value }
{
    match lists.take_from(number, value) {
        TakeOut::One(one) => Some(one),
        _ => None,
    }
}
