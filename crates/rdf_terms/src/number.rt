//! Numbers as literals write them.
#![tactic(auto, using(crate::proofs::Numbers::below_none, crate::proofs::Numbers::below_next, crate::proofs::Numbers::trailing_zero, crate::proofs::Numbers::trailing_other, crate::proofs::Numbers::few_digits, crate::proofs::Numbers::zeros_count_nothing))]

ghost use Rattle.std.specs.Prelude.{◌≡◌, ◌+◌, ◌-◌, ◌*◌, ◌^◌, ◌<◌, ◌≤◌, ◌++◌, length, take, replicate, min, Some, slice_index};
ghost use Rattle.std.specs.List.{prefix_len};
ghost use Rattle.rdf_meaning.specs.Characters.{is_digit};
ghost use Rattle.rdf_meaning.specs.Digits.{is_zero, without_leading_zeros, without_trailing_zeros, number_of_digits};
ghost use Rattle.rdf_value_meaning.specs.Datatypes.{is_from, is_up_to, is_in_range};
ghost use Rattle.rdf_value_meaning.specs.Numbers.{has_minus, without_sign, integer_numeral, decimal_numeral, signed, is_fine, billionths};
ghost use Rattle.rdf_value_meaning.specs.Values.{rank_of_numeral, numeral_in};

use crate::value::{ILL_FORMED, NUMBER, Rank, UNKNOWN};
use rdf_spelling::{are_digits, is_digit};
use rdf_value_meaning::Range;

// Whether a minus stands first, and what follows the sign.
fn split_sign(text: &[u8]) -> (bool, &[u8])
    ensures minus { result.0 ≡ has_minus text.now }
    ensures digits { result.1.now ≡ without_sign text.now }
{
    let Some((first, rest)) = text.split_first() else {
        return (false, text);
    };
    match *first {
        b'-' => (true, rest),
        b'+' => (false, rest),
        _ => (false, text),
    }
}

/// How many digits stand in front.
pub(crate) fn count_digits(text: &[u8]) -> usize
    ensures value { result ≡ prefix_len is_digit text.now }
    ensures within { result ≤ length text.now }
{
    for (i, byte) in text.iter().enumerate() {
        if !is_digit(*byte) {
            return i;
        }
    }
    text.len()
}

fn count_zeros(digits: &[u8]) -> usize
    ensures value { result ≡ prefix_len is_zero digits.now }
    ensures within { result ≤ length digits.now }
{
    for (i, byte) in digits.iter().enumerate() {
        if *byte != b'0' {
            return i;
        }
    }
    digits.len()
}

fn trim_leading_zeros(digits: &[u8]) -> &[u8]
    ensures { result.now ≡ without_leading_zeros digits.now }
{
    &digits[count_zeros(digits)..]
}

fn trim_trailing_zeros(digits: &[u8]) -> &[u8]
    ensures { result.now ≡ without_trailing_zeros digits.now }
{
    let mut kept = digits;
    while let Some((last, front)) = kept.split_last() {
        if *last != b'0' {
            break;
        }
        kept = front;
    }
    kept
}

/// The number that digits write, or the greatest `u128` where it is above that.
pub(crate) fn number_of_digits(digits: &[u8]) -> u128
    ensures value { result ≡ min (number_of_digits digits.now) (2 ^ 128 - 1) }
    ensures below { result < 23 * 10 ^ length digits.now }
{
    let mut number = 0u128;
    for byte in digits {
        number = number
            .saturating_mul(10)
            .saturating_add(u128::from(byte.saturating_sub(b'0')));
    }
    number
}

// The digit at place i behind the point, below 9.
fn digit_at(fraction: &[u8], i: usize) -> u8
    requires { i < 9 }
    ensures { result ≡ slice_index (fraction.now ++ replicate 9 48) i }
{
    fraction.get(i).copied().unwrap_or(b'0')
}

/// The first nine digits behind a point, in units of 10^-9.
pub(crate) fn billionths(fraction: &[u8]) -> u128
    ensures value { result ≡ billionths fraction.now }
    ensures below { result < 23 * 10 ^ 9 }
{
    let mut number = 0u128;
    for i in 0..9usize {
        number = number * 10 + u128::from(digit_at(fraction, i).saturating_sub(b'0'));
    }
    number
}

fn sign(is_negative: bool, number: u128) -> i128
    requires { number < 2 ^ 127 }
    ensures { result ≡ signed is_negative number }
{
    if is_negative {
        -(number as i128)
    } else {
        number as i128
    }
}

/// Whether at most nine digits stand behind a point, without the zeros at the end.
pub(crate) fn is_fine(fraction: &[u8]) -> bool
    ensures { result ≡ is_fine fraction.now }
{
    trim_trailing_zeros(fraction).len() <= 9
}

// Class 3 with its value, or class 7 where the number is too wide.
fn rank_of_digits(is_negative: bool, whole: &[u8], fraction: &[u8]) -> Rank
    ensures { result ≡ rank_of_numeral (Some (record { is_negative = is_negative; whole = whole.now; fraction = fraction.now })) }
{
    let leading = trim_leading_zeros(whole);
    if leading.len() > 18 || !is_fine(fraction) {
        return UNKNOWN;
    }
    let number = number_of_digits(leading) * 1_000_000_000 + billionths(fraction);
    (NUMBER, Some(sign(is_negative, number)))
}

fn is_from(least: Option<i128>, is_negative: bool, number: u128) -> bool
    ensures { result ≡ is_from least (signed is_negative number) }
{
    match least {
        None => true,
        Some(low) if is_negative => low <= 0 && number <= low.unsigned_abs(),
        Some(low) => low <= 0 || number >= low.unsigned_abs(),
    }
}

fn is_up_to(greatest: Option<i128>, is_negative: bool, number: u128) -> bool
    ensures { result ≡ is_up_to greatest (signed is_negative number) }
{
    match greatest {
        None => true,
        Some(high) if is_negative => high >= 0 || number >= high.unsigned_abs(),
        Some(high) => high >= 0 && number <= high.unsigned_abs(),
    }
}

// A number above every `u128` is on the same side of each bound as the greatest of them.
fn is_in_range(range: Range, is_negative: bool, digits: &[u8]) -> bool
    ensures { result ≡ is_in_range range (signed is_negative (number_of_digits digits.now)) }
{
    let number = number_of_digits(digits);
    is_from(range.least, is_negative, number) && is_up_to(range.greatest, is_negative, number)
}

/// The class and value of a whole number with this text, of a datatype with this range.
pub(crate) fn rank_of_whole(range: Range, text: &[u8]) -> Rank
    ensures { result ≡ rank_of_numeral (numeral_in range (integer_numeral text.now)) }
{
    let (is_negative, digits) = split_sign(text);
    if digits.is_empty() || !are_digits(digits) || !is_in_range(range, is_negative, digits) {
        return ILL_FORMED;
    }
    rank_of_digits(is_negative, digits, &[])
}

/// The class and value of an `xsd:decimal` with this text.
pub(crate) fn rank_of_decimal(text: &[u8]) -> Rank
    ensures { result ≡ rank_of_numeral (decimal_numeral text.now) }
{
    let (is_negative, digits) = split_sign(text);
    let (whole, tail) = digits.split_at(count_digits(digits));
    let Some((point, fraction)) = tail.split_first() else {
        if whole.is_empty() {
            return ILL_FORMED;
        }
        return rank_of_digits(is_negative, whole, &[]);
    };
    if *point != b'.' || !are_digits(fraction) || whole.is_empty() && fraction.is_empty() {
        return ILL_FORMED;
    }
    rank_of_digits(is_negative, whole, fraction)
}
