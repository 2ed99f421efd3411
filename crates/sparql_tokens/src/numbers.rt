//! Integers, decimals and doubles.

ghost use Rattle.std.specs.Prelude.{◌≡◌, ◌≤◌, ◌+◌, length, IfOk};
ghost use Rattle.sparql_meaning.specs.Tokens.{digits_len, exponent_len, number_at, number_behind, sign_len, with_point, without_point};
ghost use Rattle.sparql_tokens.specs.Pieces.{IsWithin};

use crate::names::text_from;
use crate::runs::{digits_len, sign_len};
use sparql_meaning::{Found, TokenKind};
use std::alloc::{AllocError, Global};

// `e`, a sign that may be left out, and digits, or 0.
#[tactic(auto, unfolding(sparql_meaning::specs::Tokens::exponent_len))]
fn exponent_len(chars: &[char]) -> usize
    ensures value { result ≡ exponent_len chars.now }
    ensures within { result ≤ length chars.now }
{
    let Some((first, rest)) = chars.split_first() else {
        return 0
    };
    let sign = sign_len(rest);
    let digits = digits_len(&rest[sign..]);
    if (*first == 'e' || *first == 'E') && digits != 0 {
        1 + sign + digits
    } else {
        0
    }
}

// The number behind whose sign and whole digits, which end at `at`, a full stop stands.
fn with_point(
    alloc: Global,
    whole: usize,
    fraction: usize,
    exponent: usize,
    at: usize,
    chars: &[char],
) -> Result<Option<Found>, AllocError>
    requires room { at + 1 + fraction + exponent ≤ length chars.now }
    requires whole { whole ≤ at }
    ensures value { IfOk result (λ f. f ≡ with_point whole fraction exponent at chars.now) }
    ensures within { IfOk result (IsWithin (length chars.now)) }
{
    if whole + fraction != 0 && exponent != 0 {
        let n = at + 1 + fraction + exponent;
        let kind = TokenKind::Double(text_from(alloc, &chars[..n])?);
        Ok(Some(Found { kind, chars: n }))
    } else if fraction != 0 {
        let n = at + 1 + fraction;
        let kind = TokenKind::Decimal(text_from(alloc, &chars[..n])?);
        Ok(Some(Found { kind, chars: n }))
    } else if whole != 0 {
        let kind = TokenKind::Integer(text_from(alloc, &chars[..at])?);
        Ok(Some(Found { kind, chars: at }))
    } else {
        Ok(None)
    }
}

fn without_point(
    alloc: Global,
    whole: usize,
    exponent: usize,
    at: usize,
    chars: &[char],
) -> Result<Option<Found>, AllocError>
    requires room { at + exponent ≤ length chars.now }
    requires whole { whole ≤ at }
    ensures value { IfOk result (λ f. f ≡ without_point whole exponent at chars.now) }
    ensures within { IfOk result (IsWithin (length chars.now)) }
{
    if whole == 0 {
        Ok(None)
    } else if exponent == 0 {
        let kind = TokenKind::Integer(text_from(alloc, &chars[..at])?);
        Ok(Some(Found { kind, chars: at }))
    } else {
        let n = at + exponent;
        let kind = TokenKind::Double(text_from(alloc, &chars[..n])?);
        Ok(Some(Found { kind, chars: n }))
    }
}

// The number whose sign and whole digits end at `at`, where `behind` begins.
fn number_behind(
    alloc: Global,
    at: usize,
    whole: usize,
    behind: &[char],
    chars: &[char],
) -> Result<Option<Found>, AllocError>
    requires room { at + length behind.now ≡ length chars.now }
    requires whole { whole ≤ at }
    ensures value { IfOk result (λ f. f ≡ number_behind at whole behind.now chars.now) }
    ensures within { IfOk result (IsWithin (length chars.now)) }
{
    let Some((first, rest)) = behind.split_first() else {
        return without_point(alloc, whole, 0, at, chars)
    };
    if *first == '.' {
        let fraction = digits_len(rest);
        let exponent = exponent_len(&rest[fraction..]);
        with_point(alloc, whole, fraction, exponent, at, chars)
    } else {
        without_point(alloc, whole, exponent_len(behind), at, chars)
    }
}

/// The number in front.
#[tactic(auto, unfolding(sparql_meaning::specs::Tokens::number_at))]
pub(crate) fn number_at(alloc: Global, chars: &[char]) -> Result<Option<Found>, AllocError>
    ensures value { IfOk result (λ f. f ≡ number_at chars.now) }
    ensures within { IfOk result (IsWithin (length chars.now)) }
{
    let sign = sign_len(chars);
    let whole = digits_len(&chars[sign..]);
    number_behind(alloc, sign + whole, whole, &chars[sign + whole..], chars)
}
