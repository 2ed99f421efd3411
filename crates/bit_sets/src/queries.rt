//! What a set is asked, by its blocks.

ghost use Rattle.std.specs.Prelude.{◌≡◌, ◌/◌, ◌%◌, ℕ, length, nat_eq};
ghost use Rattle.std.specs.Int.{bit_at};
ghost use Rattle.std.specs.List.{list_any};
ghost use Rattle.bit_sets.specs.Blocks.{numbers_of, numbers_in, AreWords};

use crate::words::place_of;

/// The word of a block, 0 if the block isn't there, and the place after it. The guess is of the block's
/// place.
fn word_of(words: &[(u32, u64)], guess: usize, block: u32) -> (u64, usize)
    requires { AreWords words.now }
    ensures { (n : ℕ) → n / 64 ≡ block → list_any (nat_eq n) (numbers_in words.now) ≡ nat_eq (bit_at result.0 (n % 64)) 1 }
{
    match place_of(words, guess, block) {
        Ok(place) => (words[place].1, place + 1),
        Err(place) => (0, place),
    }
}

/// Whether the words have a number.
pub(crate) fn has_number(words: &[(u32, u64)], number: u32) -> bool
    requires { AreWords words.now }
    ensures { result ≡ list_any (nat_eq number) (numbers_in words.now) }
{
    let (word, _) = word_of(words, 0, number / 64);
    (word >> (number % 64)) & 1 == 1
}

/// Whether the words have a number of one block, and the place after it. The guess is of the block's place.
fn any_of_word(words: &[(u32, u64)], guess: usize, block: u32, word: u64) -> (bool, usize)
    requires { AreWords words.now }
    ensures { result.0 ≡ list_any (λ n. list_any (nat_eq n) (numbers_in words.now)) (numbers_of (block, word)) }
{
    let (there, after) = word_of(words, guess, block);
    (word & there != 0, after)
}

/// Whether others have a number of the words.
fn any_in(words: &[(u32, u64)], others: &[(u32, u64)]) -> bool
    requires words { AreWords words.now }
    requires others { AreWords others.now }
    ensures { result ≡ list_any (λ n. list_any (nat_eq n) (numbers_in others.now)) (numbers_in words.now) }
{
    // Sets often have the same blocks, and then each guess is right.
    let mut guess = 0;
    for (block, word) in words {
        let (met, after) = any_of_word(others, guess, *block, *word);
        if met {
            return true;
        }
        guess = after;
    }
    false
}

/// Whether the words and others have a number in common.
pub(crate) fn have_common(words: &[(u32, u64)], others: &[(u32, u64)]) -> bool
    requires words { AreWords words.now }
    requires others { AreWords others.now }
    ensures { result ≡ list_any (λ n. list_any (nat_eq n) (numbers_in others.now)) (numbers_in words.now) }
{
    if words.len() <= others.len() {
        any_in(words, others)
    } else {
        any_in(others, words)
    }
}

/// How many numbers a word has, in any block.
fn count_of_word(word: u64) -> usize
    ensures { (block : ℕ) → result ≡ length (numbers_of (block, word)) }
{
    word.count_ones() as usize
}

/// How many numbers the words have.
pub(crate) fn count_numbers(words: &[(u32, u64)]) -> usize
    requires { AreWords words.now }
    ensures { result ≡ length (numbers_in words.now) }
{
    let mut count = 0;
    for (_, word) in words {
        count += count_of_word(*word);
    }
    count
}
