//! A set of numbers.

ghost use Rattle.std.specs.Prelude.{◌≡◌, ◌||◌, [], ℕ, length, nat_eq, IfOk, OnOk};
ghost use Rattle.std.specs.List.{list_any};
ghost use Rattle.std.specs.List.Sorted.{IsStrictlySortedBy};
ghost use Rattle.std.specs.Ordering.{nat_cmp};

use crate::queries::{count_numbers, has_number, have_common};
use crate::words::{add_word, add_words, all_numbers};
use std::alloc::{AllocError, Global};
use std::marker::Model;

/// A set of numbers of 32 bits, which contracts see as a list, rising. It takes memory by blocks of 64
/// numbers, for those blocks that have any.
#[derive(Drop)]
pub struct BitSet {
    // The blocks, rising, each with the bits of its numbers.
    words: Vec<(u32, u64)>,
}

impl Model for BitSet {
    ghost use Rattle.std.specs.Prelude.{List, ℕ};
    ghost use Rattle.std.specs.Coded.{coded_list, coded_ℕ};
    ghost use Rattle.bit_sets.specs.Blocks.{numbers_in, AreWords};

    ghost Value = { List ℕ };

    ghost coded = { coded_list coded_ℕ };

    ghost view = { λ s. numbers_in s.words.items };

    ghost invariant = { λ s. AreWords s.words.items };
}

impl BitSet {
    /// No numbers.
    pub fn new(alloc: Global) -> BitSet
        ensures { result ≡ [] }
    {
        BitSet {
            words: Vec::new(alloc),
        }
    }

    /// Puts a number in, unless it is there.
    ///
    /// # Errors
    ///
    /// Memory runs out; what the set has then isn't said.
    pub fn insert(&mut self, number: u32) -> Result<(), AllocError>
        ensures { OnOk result ((n : ℕ) → list_any (nat_eq n) self.new ≡ (list_any (nat_eq n) self.old || nat_eq n number)) }
    {
        // Numbers often come rising.
        let last = self.words.len().saturating_sub(1);
        add_word(&mut self.words, last, number / 64, 1 << (number % 64))?;
        Ok(())
    }

    /// Puts the numbers of another set in.
    ///
    /// # Errors
    ///
    /// Memory runs out; what the set has then isn't said.
    pub fn union_with(&mut self, other: &BitSet) -> Result<(), AllocError>
        ensures { OnOk result ((n : ℕ) → list_any (nat_eq n) self.new ≡ (list_any (nat_eq n) self.old || list_any (nat_eq n) other.now)) }
    {
        add_words(&mut self.words, other.words.as_slice())
    }

    /// How many numbers it has.
    pub fn len(&self) -> usize
        ensures value { result ≡ length self.now }
        ensures rising { IsStrictlySortedBy nat_cmp self.now }
    {
        count_numbers(self.words.as_slice())
    }

    /// Whether it has a number.
    pub fn contains(&self, number: u32) -> bool
        ensures { result ≡ list_any (nat_eq number) self.now }
    {
        has_number(self.words.as_slice(), number)
    }

    /// Whether the sets have a number in common.
    pub fn meets(&self, other: &BitSet) -> bool
        ensures { result ≡ list_any (λ n. list_any (nat_eq n) other.now) self.now }
    {
        have_common(self.words.as_slice(), other.words.as_slice())
    }

    /// The numbers, rising.
    ///
    /// # Errors
    ///
    /// Memory runs out.
    pub fn numbers(&self, alloc: Global) -> Result<Vec<u32>, AllocError>
        ensures value { IfOk result (λ list. list.items ≡ self.now) }
        ensures rising { IsStrictlySortedBy nat_cmp self.now }
    {
        all_numbers(alloc, self.words.as_slice())
    }
}
