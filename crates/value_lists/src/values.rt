//! The values of one list.

ghost use Rattle.std.specs.Prelude.{◌≡◌, ◌<◌, ◌≤◌, ◌∷◌, ◌++◌, [], ℕ, nat_eq, true, false, length, remove, IfOk, OnOk, OnErr};
ghost use Rattle.std.specs.List.{list_any};
ghost use Rattle.std.specs.Set.{remove_key};
ghost use Rattle.std.specs.HashSet.{contains};
ghost use Rattle.layout_meaning.specs.Sound.{times};
ghost use Rattle.value_lists.specs.Values.{IsIndexOf};

use std::alloc::{AllocError, Global};
use std::collections::HashSet;
use std::marker::Model;

/// A list of this many values is scanned; a longer one has an index.
const MOST_SCANNED: usize = 16;

/// Distinct values in order, which contracts see as a list.
#[derive(Drop)]
pub(crate) struct Values {
    items: Vec<u32>,
    /// The same values, or none while the list is short.
    index: HashSet<u32>,
}

impl Model for Values {
    ghost use Rattle.std.specs.Prelude.{List, ℕ};
    ghost use Rattle.std.specs.Coded.{coded_list, coded_ℕ};
    ghost use Rattle.value_lists.specs.Values.{AreValues};

    ghost Value = { List ℕ };

    ghost coded = { coded_list coded_ℕ };

    ghost view = { λ v. v.items.items };

    ghost invariant = { λ v. AreValues v.items.items v.index };
}

impl Values {
    pub(crate) fn two(alloc: Global, first: u32, second: u32) -> Result<Values, AllocError>
        requires { nat_eq second first ≡ false }
        ensures { IfOk result (λ v. v ≡ first ∷ second ∷ []) }
    {
        let items = vec![in alloc; first, second]?;
        Ok(Values {
            items,
            index: HashSet::new(alloc),
        })
    }

    pub(crate) fn as_slice(&self) -> &[u32]
        ensures { result.now ≡ self.now }
    {
        self.items.as_slice()
    }

    pub(crate) fn contains(&self, value: u32) -> bool
        ensures { result ≡ list_any (nat_eq value) self.now }
    {
        has(self.items.as_slice(), &self.index, value)
    }

    /// Puts a value last that isn't there.
    pub(crate) fn put(&mut self, alloc: Global, value: u32) -> Result<(), AllocError>
        requires { list_any (nat_eq value) self.old ≡ false }
        ensures ok { OnOk result (self.new ≡ self.old ++ value ∷ []) }
        ensures err { OnErr result (self.new ≡ self.old) }
    {
        self.items.reserve(1)?;
        note(&mut self.index, alloc, self.items.as_slice(), value)?;
        self.items.push_reserved(value);
        Ok(())
    }

    /// Takes out a value that is there. The others keep their order.
    pub(crate) fn take(&mut self, value: u32)
        requires { list_any (nat_eq value) self.old ≡ true }
        ensures { self.new ≡ remove_key (nat_eq value) self.old }
    {
        let at = place_of(self.items.as_slice(), value);
        self.items.remove(at);
        self.index.remove(&value);
    }
}

fn has(items: &[u32], index: &HashSet<u32>, value: u32) -> bool
    requires { IsIndexOf items.now index.now }
    ensures { result ≡ list_any (nat_eq value) items.now }
{
    if index.is_empty() {
        is_among(items, value)
    } else {
        index.contains(&value)
    }
}

fn is_among(items: &[u32], value: u32) -> bool
    ensures { result ≡ list_any (nat_eq value) items.now }
{
    items.iter().any(|&item| value == item)
}

/// Where a value stands that is there, and not twice. It is looked for from the back, since the values that came
/// last are often the first to go.
fn place_of(items: &[u32], value: u32) -> usize
    requires there { list_any (nat_eq value) items.now ≡ true }
    requires once { times value items.now ≤ 1 }
    ensures within { result < length items.now }
    ensures place { remove items.now result ≡ remove_key (nat_eq value) items.now }
{
    let mut end = items.len();
    while items[end - 1] != value {
        end -= 1;
    }
    end - 1
}

/// An index of these values.
fn index_of(alloc: Global, items: &[u32]) -> Result<HashSet<u32>, AllocError>
    ensures { IfOk result (λ index. (q : ℕ) → contains nat_eq index q ≡ list_any (nat_eq q) items.now) }
{
    let mut index = HashSet::new(alloc);
    for &item in items {
        let Ok(_added) = index.insert(item) else {
            return Err(AllocError);
        };
    }
    Ok(index)
}

/// Puts one more value into an index of these.
fn add_to(index: &mut HashSet<u32>, items: &[u32], value: u32) -> Result<(), AllocError>
    requires { (q : ℕ) → contains nat_eq index.old q ≡ list_any (nat_eq q) items.now }
    ensures ok { OnOk result ((q : ℕ) → contains nat_eq index.new q ≡ list_any (nat_eq q) (items.now ++ value ∷ [])) }
    ensures err { OnErr result ((q : ℕ) → contains nat_eq index.new q ≡ list_any (nat_eq q) items.now) }
{
    let Ok(_added) = index.insert(value) else {
        return Err(AllocError);
    };
    Ok(())
}

/// Readies the index for one more value.
fn note(
    index: &mut HashSet<u32>,
    alloc: Global,
    items: &[u32],
    value: u32,
) -> Result<(), AllocError>
    requires { IsIndexOf items.now index.old }
    ensures ok { OnOk result (IsIndexOf (items.now ++ value ∷ []) index.new) }
    ensures err { OnErr result (IsIndexOf items.now index.new) }
{
    if !index.is_empty() {
        return add_to(index, items, value);
    }
    if items.len() >= MOST_SCANNED {
        let mut made = index_of(alloc, items)?;
        add_to(&mut made, items, value)?;
        *index = made;
    }
    Ok(())
}
