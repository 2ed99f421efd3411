//! Blocks of 64 numbers, each with a word that has one bit a number.

ghost use Rattle.std.specs.Prelude.{◌≡◌, ◌≤◌, ◌++◌, ◌||◌, ℕ, length, nat_eq, take, IfOk, OnOk};
ghost use Rattle.std.specs.List.{list_any};
ghost use Rattle.std.specs.List.Sorted.{IsStrictlySortedBy};
ghost use Rattle.std.specs.Ordering.{nat_cmp};
ghost use Rattle.bit_sets.specs.Blocks.{numbers_of, numbers_in, IsBlock, AreWords};
ghost use Rattle.bit_sets.specs.Merges.{AreBelow, IsMerged};
ghost use Rattle.bit_sets.specs.Places.{IsPlaceOf};

use std::alloc::{AllocError, Global};

/// The place of a block, or else the one that it would have. The guess is tried first, and any will do.
pub(crate) fn place_of(words: &[(u32, u64)], guess: usize, block: u32) -> Result<usize, usize>
    requires { AreWords words.now }
    ensures { IsPlaceOf block words.now result }
{
    if let Some((there, _)) = words.get(guess) {
        if *there == block {
            return Ok(guess);
        }
    }
    words.binary_search_by_key(&block, |(there, _)| *there)
}

/// Puts the numbers of one block in. The guess is of the block's place.
pub(crate) fn add_word(
    words: &mut Vec<(u32, u64)>,
    guess: usize,
    block: u32,
    word: u64,
) -> Result<(), AllocError>
    requires words { AreWords words.old.items }
    requires block { IsBlock block }
    ensures words { AreWords words.new.items }
    ensures added { OnOk result ((n : ℕ) → list_any (nat_eq n) (numbers_in words.new.items) ≡ (list_any (nat_eq n) (numbers_in words.old.items) || list_any (nat_eq n) (numbers_of (block, word)))) }
{
    match place_of(words.as_slice(), guess, block) {
        Ok(place) => {
            words[place].1 |= word;
            Ok(())
        }
        Err(place) => {
            let Ok(()) = words.insert(place, (block, word)) else {
                return Err(AllocError);
            };
            Ok(())
        }
    }
}

/// Puts the numbers of other words in. While the blocks are there, no word moves.
pub(crate) fn add_words(
    words: &mut Vec<(u32, u64)>,
    others: &[(u32, u64)],
) -> Result<(), AllocError>
    requires words { AreWords words.old.items }
    requires others { AreWords others.now }
    ensures words { AreWords words.new.items }
    ensures added { OnOk result ((n : ℕ) → list_any (nat_eq n) (numbers_in words.new.items) ≡ (list_any (nat_eq n) (numbers_in words.old.items) || list_any (nat_eq n) (numbers_in others.now))) }
{
    // Sets often have the same blocks, and then each guess is right.
    let mut guess = 0;
    for (i, (block, word)) in others.iter().enumerate() {
        match place_of(words.as_slice(), guess, *block) {
            Ok(place) => {
                words[place].1 |= *word;
                guess = place + 1;
            }
            Err(place) => return merge_words(words, place, &others[i..]),
        }
    }
    Ok(())
}

/// Puts the numbers of other words in, whose blocks all belong at this place or later. What stands
/// from there on moves once.
fn merge_words(
    words: &mut Vec<(u32, u64)>,
    place: usize,
    others: &[(u32, u64)],
) -> Result<(), AllocError>
    requires words { AreWords words.old.items }
    requires place { place ≤ length words.old.items }
    requires others { AreWords (take place words.old.items ++ others.now) }
    ensures words { AreWords words.new.items }
    ensures added { OnOk result ((n : ℕ) → list_any (nat_eq n) (numbers_in words.new.items) ≡ (list_any (nat_eq n) (numbers_in words.old.items) || list_any (nat_eq n) (numbers_in others.now))) }
{
    let tail = words.split_off(place)?;
    let mut rest = tail.as_slice();
    for (block, word) in others {
        rest = merge_word(words, rest, *block, *word)?;
    }
    words.extend_from_slice(rest)?;
    Ok(())
}

/// Appends those of the rest that stand before a block, then the block with its word or-ed in, and
/// answers what is left.
fn merge_word<'a>(
    words: &mut Vec<(u32, u64)>,
    rest: &'a [(u32, u64)],
    block: u32,
    word: u64,
) -> Result<&'a [(u32, u64)], AllocError>
    requires words { AreWords (words.old.items ++ rest.now) }
    requires block { IsBlock block }
    requires below { AreBelow block words.old.items }
    ensures words { AreWords words.new.items }
    ensures merged { IfOk result (λ left. IsMerged words.old.items rest.now block word words.new.items left.now) }
{
    match place_of(rest, 0, block) {
        Ok(place) => {
            words.extend_from_slice(&rest[..place])?;
            words.push((block, rest[place].1 | word))?;
            Ok(&rest[place + 1..])
        }
        Err(place) => {
            words.extend_from_slice(&rest[..place])?;
            words.push((block, word))?;
            Ok(&rest[place..])
        }
    }
}

/// Appends the numbers of one block.
fn push_numbers(numbers: &mut Vec<u32>, block: u32, word: u64) -> Result<(), AllocError>
    requires { IsBlock block }
    ensures { OnOk result (numbers.new.items ≡ numbers.old.items ++ numbers_of (block, word)) }
{
    let mut left = word;
    while left != 0 {
        let place = left.trailing_zeros();
        numbers.push(block * 64 + place)?;
        left &= !(1 << place);
    }
    Ok(())
}

/// The numbers of the blocks, rising.
pub(crate) fn all_numbers(alloc: Global, words: &[(u32, u64)]) -> Result<Vec<u32>, AllocError>
    requires { AreWords words.now }
    ensures value { IfOk result (λ list. list.items ≡ numbers_in words.now) }
    ensures rising { IsStrictlySortedBy nat_cmp (numbers_in words.now) }
{
    let mut numbers = Vec::new(alloc);
    for (block, word) in words {
        push_numbers(&mut numbers, *block, *word)?;
    }
    Ok(numbers)
}
