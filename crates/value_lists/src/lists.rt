//! Lists under their ids.

ghost use Rattle.std.specs.Prelude.{◌≡◌, ◌≢◌, ◌≤◌, ◌<◌, ◌+◌, ◌∷◌, ◌++◌, [], ℤ, negsuc, ◌≤ℤ◌, ◌^◌, IsSome, length, nat_eq, true, false, IfOk, IfErr, OnOk, OnErr, Some, None, Err};
ghost use Rattle.std.specs.List.{list_any};
ghost use Rattle.std.specs.Ordering.{nat_cmp};
ghost use Rattle.std.specs.BTreeMap.{get, is_at, insert_entry};
ghost use Rattle.std.specs.Map.{set_value};
ghost use Rattle.std.specs.Set.{remove_key};
ghost use Rattle.layout_meaning.specs.Side.{elements_of, only, left_lists};
ghost use Rattle.layout_meaning.specs.Lists.{AreLists, list_id, number_of, with_list, with_value, without_value};
ghost use Rattle.value_lists.specs.Answers.{put_of, take_out_of, HasList, HasNumber};

use crate::values::Values;
use std::alloc::{AllocError, Global};
use std::collections::BTreeMap;
use std::marker::Model;

/// How many ids there are: the last one is -2^62.
const IDS: u64 = 1 << 62;

/// Why no list can be made.
#[derive(Clone, Copy, Debug, PartialEq, Eq)]
pub enum ListRefusal {
    /// The last id was given out.
    ListsFull,
    NoMemory,
}

impl From<AllocError> for ListRefusal {
    ghost use Rattle.std.specs.Prelude.{◌≡◌};
    ghost use Rattle.value_lists.specs.declared.lists.ListRefusal.TheVariants.{NoMemory};

    ghost from_gives = { λ _ e. e ≡ NoMemory };

    fn from(_error: AllocError) -> ListRefusal {
        ListRefusal::NoMemory
    }
}

/// Whether a value came in, or was there before.
#[derive(Clone, Copy, Debug, PartialEq, Eq)]
pub enum Put {
    Added,
    There,
}

/// What became of a list of which a value was to be taken out.
#[derive(Clone, Copy, Debug, PartialEq, Eq)]
pub enum TakeOut {
    /// The value wasn't there.
    Absent,
    /// At least two values stay.
    Left,
    /// This one value stays, and the list is gone.
    One(u32),
}

/// Lists of at least two distinct values under negative ids, and the next id.
#[derive(Drop)]
pub struct Lists {
    lists: BTreeMap<u64, Values>,
    next: u64,
}

impl Model for Lists {
    ghost use Rattle.std.specs.Prelude.{◌≤◌, ◌^◌};
    ghost use Rattle.layout_meaning.specs.Lists.{ListsOf, AreLists};
    ghost use Rattle.value_lists.specs.Values.{AreNumbered};

    ghost Value = { ListsOf };

    ghost view = { λ l. record { lists = l.lists.entries; next = l.next } };

    ghost invariant = { λ l. AreNumbered (record { lists = l.lists.entries; next = l.next }) };
}

impl Lists {
    /// No lists; the first one is to have the id `next`.
    pub fn starting(alloc: Global, next: i64) -> Lists
        requires low { negsuc 4611686018427387903 ≤ℤ next }
        requires high { next ≤ℤ negsuc 0 }
        ensures { result ≡ record { lists = []; next = number_of next } }
    {
        Lists {
            lists: BTreeMap::new(alloc),
            next: number_of(next),
        }
    }

    /// Makes a list of two values under the next id, and answers this id.
    pub fn make_two(&mut self, alloc: Global, first: u32, second: u32) -> Result<i64, ListRefusal>
        requires { first ≢ second }
        ensures id { IfOk result (λ id. id ≡ list_id self.old.next) }
        ensures ok { OnOk result (self.new ≡ with_list self.old (first ∷ second ∷ [])) }
        ensures room { OnOk result (self.old.next < 2 ^ 62) }
        ensures full { result ≡ Err ListRefusal.ListsFull → self.old.next ≡ 2 ^ 62 }
        ensures err { OnErr result (self.new ≡ self.old) }
    {
        let number = self.next;
        if number >= IDS {
            return Err(ListRefusal::ListsFull);
        }
        insert_two(&mut self.lists, alloc, number, first, second)?;
        self.next = number + 1;
        Ok(id_of(number))
    }

    /// The values of a list, in order.
    pub fn elements(&self, list: i64) -> &[u32]
        requires { HasList self.now list }
        ensures { result.now ≡ elements_of self.now.lists (number_of list) }
    {
        self.lists.get(&number_of(list)).unwrap().as_slice()
    }

    /// Puts a value last into a list, unless it is there.
    pub fn add(&mut self, alloc: Global, list: i64, value: u32) -> Result<Put, AllocError>
        requires { HasList self.old list }
        ensures put { IfOk result (λ put. put ≡ put_of (list_any (nat_eq value) (elements_of self.old.lists (number_of list)))) }
        ensures ok { OnOk result (self.new ≡ with_value self.old (number_of list) value) }
        ensures err { OnErr result (self.new ≡ self.old) }
    {
        self.add_to(alloc, number_of(list), value)
    }

    /// Takes a value out of a list. The others keep their order; a list of one is gone. It takes no memory.
    pub fn take_out(&mut self, list: i64, value: u32) -> TakeOut
        requires { HasList self.old list }
        ensures answer { result ≡ take_out_of (elements_of self.old.lists (number_of list)) value }
        ensures lists { self.new ≡ without_value self.old (number_of list) value }
    {
        self.take_from(number_of(list), value)
    }

    /// The number of the next list: its id is -1 less this number.
    pub fn next_number(&self) -> u64
        ensures value { result ≡ self.now.next }
        ensures ids { result ≤ 2 ^ 62 }
    {
        self.next
    }

    /// Whether a value is in the list with this number.
    pub fn has_in(&self, number: u64, value: u32) -> bool
        ensures { result ≡ list_any (nat_eq value) (elements_of self.now.lists number) }
    {
        match self.lists.get(&number) {
            Some(values) => values.contains(value),
            None => false,
        }
    }

    /// The values of the list with this number, in order.
    pub fn elements_in(&self, number: u64) -> &[u32]
        requires { HasNumber self.now number }
        ensures { result.now ≡ elements_of self.now.lists number }
    {
        self.lists.get(&number).unwrap().as_slice()
    }

    /// As `add`, by the number of the list.
    pub fn add_to(&mut self, alloc: Global, number: u64, value: u32) -> Result<Put, AllocError>
        requires { HasNumber self.old number }
        ensures put { IfOk result (λ put. put ≡ put_of (list_any (nat_eq value) (elements_of self.old.lists number))) }
        ensures ok { OnOk result (self.new ≡ with_value self.old number value) }
        ensures err { OnErr result (self.new ≡ self.old) }
    {
        if self.has_in(number, value) {
            return Ok(Put::There);
        }
        append(&mut self.lists, alloc, number, value)?;
        Ok(Put::Added)
    }

    /// As `take_out`, by the number of the list.
    pub fn take_from(&mut self, number: u64, value: u32) -> TakeOut
        requires { HasNumber self.old number }
        ensures answer { result ≡ take_out_of (elements_of self.old.lists number) value }
        ensures lists { self.new ≡ without_value self.old number value }
    {
        if !self.has_in(number, value) {
            return TakeOut::Absent;
        }
        match take_from(&mut self.lists, number, value) {
            Some(one) => TakeOut::One(one),
            None => TakeOut::Left,
        }
    }

    /// How many lists there are.
    pub fn count(&self) -> u64
        ensures count { result ≡ length self.now.lists }
        ensures lists { AreLists self.now }
    {
        self.lists.len() as u64
    }
}

/// The id of the list with this number.
fn id_of(number: u64) -> i64
    requires { number < 2 ^ 62 }
    ensures { result ≡ list_id number }
{
    -1 - number as i64
}

/// The number of the list with this id.
fn number_of(id: i64) -> u64
    requires { id ≤ℤ negsuc 0 }
    ensures { result ≡ number_of id }
{
    (-1 - id) as u64
}

/// Puts in a list of two values.
fn insert_two(
    lists: &mut BTreeMap<u64, Values>,
    alloc: Global,
    number: u64,
    first: u32,
    second: u32,
) -> Result<(), AllocError>
    requires { first ≢ second }
    ensures ok { OnOk result (lists.new.entries ≡ insert_entry nat_cmp lists.old.entries number (first ∷ second ∷ [])) }
    ensures err { OnErr result (lists.new.entries ≡ lists.old.entries) }
{
    let values = Values::two(alloc, first, second)?;
    let Ok(_old) = lists.insert(number, values) else {
        return Err(AllocError);
    };
    Ok(())
}

/// Puts a value last into a list that hasn't got it.
#[tactic(auto, using(std::proofs::lemmas::Map::Steps::set_value_same))]
fn append(
    lists: &mut BTreeMap<u64, Values>,
    alloc: Global,
    number: u64,
    value: u32,
) -> Result<(), AllocError>
    requires there { IsSome (get nat_cmp lists.old number) }
    requires new { list_any (nat_eq value) (elements_of lists.old.entries number) ≡ false }
    ensures ok { OnOk result (lists.new.entries ≡ set_value (is_at (nat_cmp number)) lists.old.entries (elements_of lists.old.entries number ++ value ∷ [])) }
    ensures err { OnErr result (lists.new.entries ≡ lists.old.entries) }
{
    let values = lists.get_mut(&number).unwrap();
    values.put(alloc, value)
}

/// Takes a value out of a list that has it, and gives the value that stays where one does.
fn shrink(lists: &mut BTreeMap<u64, Values>, number: u64, value: u32) -> Option<u32>
    requires there { IsSome (get nat_cmp lists.old number) }
    requires held { list_any (nat_eq value) (elements_of lists.old.entries number) ≡ true }
    ensures one { result ≡ only (remove_key (nat_eq value) (elements_of lists.old.entries number)) }
    ensures lists { lists.new.entries ≡ set_value (is_at (nat_cmp number)) lists.old.entries (remove_key (nat_eq value) (elements_of lists.old.entries number)) }
{
    let values = lists.get_mut(&number).unwrap();
    values.take(value);
    one_of(values.as_slice())
}

fn one_of(values: &[u32]) -> Option<u32>
    ensures { result ≡ only values.now }
{
    match values {
        [one] => Some(*one),
        _ => None,
    }
}

/// The same, where a list of one is dropped.
fn take_from(lists: &mut BTreeMap<u64, Values>, number: u64, value: u32) -> Option<u32>
    requires there { IsSome (get nat_cmp lists.old number) }
    requires held { list_any (nat_eq value) (elements_of lists.old.entries number) ≡ true }
    ensures one { result ≡ only (remove_key (nat_eq value) (elements_of lists.old.entries number)) }
    ensures lists { lists.new.entries ≡ left_lists (remove_key (nat_eq value) (elements_of lists.old.entries number)) number lists.old.entries }
{
    let one = shrink(lists, number, value);
    if one.is_some() {
        lists.remove(&number);
    }
    one
}
