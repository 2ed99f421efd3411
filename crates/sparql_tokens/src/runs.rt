//! How many characters in front are of one kind.

ghost use Rattle.std.specs.Prelude.{◌≡◌, ◌≤◌, length};
ghost use Rattle.std.specs.List.{prefix_len};
ghost use Rattle.rdf_meaning.specs.Characters as characters;
ghost use Rattle.sparql_meaning.specs.Classes as classes;
ghost use Rattle.sparql_meaning.specs.Tokens.{head, sign_len, variable_len};

use crate::classes::{is_digit, is_letter, is_start, is_tag_part, is_variable_part, is_word_part};

/// The first character, or NUL.
pub(crate) fn head(chars: &[char]) -> char
    ensures { result ≡ head chars.now }
{
    match chars {
        [] => '\0',
        [first, ..] => *first,
    }
}

pub(crate) fn digits_len(chars: &[char]) -> usize
    ensures value { result ≡ prefix_len characters.is_digit chars.now }
    ensures within { result ≤ length chars.now }
{
    for (i, c) in chars.iter().enumerate() {
        if !is_digit(*c) {
            return i;
        }
    }
    chars.len()
}

pub(crate) fn letters_len(chars: &[char]) -> usize
    ensures value { result ≡ prefix_len characters.is_letter chars.now }
    ensures within { result ≤ length chars.now }
{
    for (i, c) in chars.iter().enumerate() {
        if !is_letter(*c) {
            return i;
        }
    }
    chars.len()
}

pub(crate) fn word_len(chars: &[char]) -> usize
    ensures value { result ≡ prefix_len classes.is_word_part chars.now }
    ensures within { result ≤ length chars.now }
{
    for (i, c) in chars.iter().enumerate() {
        if !is_word_part(*c) {
            return i;
        }
    }
    chars.len()
}

pub(crate) fn variable_rest_len(chars: &[char]) -> usize
    ensures value { result ≡ prefix_len classes.is_variable_part chars.now }
    ensures within { result ≤ length chars.now }
{
    for (i, c) in chars.iter().enumerate() {
        if !is_variable_part(*c) {
            return i;
        }
    }
    chars.len()
}

pub(crate) fn sign_len(chars: &[char]) -> usize
    ensures value { result ≡ sign_len chars.now }
    ensures within { result ≤ length chars.now }
{
    match chars {
        ['+' | '-', ..] => 1,
        _ => 0,
    }
}

/// How many characters the name of a variable has.
pub(crate) fn variable_len(chars: &[char]) -> usize
    ensures value { result ≡ variable_len chars.now }
    ensures within { result ≤ length chars.now }
{
    let Some((first, rest)) = chars.split_first() else {
        return 0
    };
    if is_start(*first) || is_digit(*first) {
        1 + variable_rest_len(rest)
    } else {
        0
    }
}
