//! Escapes (SPARQL 1.1 Query, sections 19.2 and 19.8).

ghost use Rattle.std.specs.Prelude.{◌≡◌, ◌≤◌, ◌<◌, length, IsTrue, IfSome, OnSome, IsSome};
ghost use Rattle.sparql_meaning.specs.Classes.{is_hex};
ghost use Rattle.sparql_meaning.specs.Tokens.{escape_at, escaped_len, hex_number, hex_value, scalar_escape, short_escape};

use crate::classes::{is_digit, is_hex, is_kept};
use crate::runs::head;
use sparql_meaning::Escape;

fn hex_value(c: char) -> u32
    requires { IsTrue (is_hex c) }
    ensures value { result ≡ hex_value c }
    ensures below { result < 16 }
{
    if is_digit(c) {
        c as u32 - 48
    } else if c <= 'F' {
        c as u32 - 55
    } else {
        c as u32 - 87
    }
}

// The number of so many hex digits in front, behind those read before, up to that of a character.
fn hex_number(digits: usize, number: u32, chars: &[char]) -> Option<u32>
    ensures value { result ≡ hex_number digits number chars.now }
    ensures within { OnSome result (digits ≤ length chars.now) }
{
    if digits == 0 {
        return Some(number);
    }
    let Some((first, rest)) = chars.split_first() else {
        return None
    };
    if is_hex(*first) && number <= 0x10FFFF {
        hex_number(digits - 1, 16 * number + hex_value(*first), rest)
    } else {
        None
    }
}

fn scalar_escape(chars: usize, number: Option<u32>) -> Option<Escape>
    ensures value { result ≡ scalar_escape chars number }
    ensures same { IfSome result (λ e. e.chars ≡ chars) }
    ensures number { OnSome result (IsSome number) }
{
    let value = char::from_u32(number?)?;
    Some(Escape { value, chars })
}

fn short_escape(c: char) -> char
    ensures { result ≡ short_escape c }
{
    match c {
        't' => '\t',
        'b' => '\u{8}',
        'n' => '\n',
        'r' => '\r',
        'f' => '\u{C}',
        '"' | '\'' | '\\' => c,
        _ => '\0',
    }
}

/// What stands behind a backslash.
#[tactic(auto, unfolding(sparql_meaning::specs::Tokens::escape_at))]
pub(crate) fn escape_at(short: bool, chars: &[char]) -> Option<Escape>
    ensures value { result ≡ escape_at short chars.now }
    ensures within { IfSome result (λ e. e.chars ≤ length chars.now) }
{
    let Some((first, rest)) = chars.split_first() else {
        return None
    };
    if *first == 'u' {
        scalar_escape(5, hex_number(4, 0, rest))
    } else if *first == 'U' {
        scalar_escape(9, hex_number(8, 0, rest))
    } else if short && short_escape(*first) != '\0' {
        Some(Escape {
            value: short_escape(*first),
            chars: 1,
        })
    } else {
        None
    }
}

/// How many characters an escape in a local name has, or 0.
pub(crate) fn escaped_len(chars: &[char]) -> usize
    ensures value { result ≡ escaped_len chars.now }
    ensures within { result ≤ length chars.now }
{
    let Some((first, rest)) = chars.split_first() else {
        return 0
    };
    if *first == '%' {
        match rest {
            [a, b, ..] if is_hex(*a) && is_hex(*b) => 3,
            _ => 0,
        }
    } else if *first == '\\' && is_kept(head(rest)) {
        2
    } else {
        0
    }
}
