//! Names and ints, read from bytes.

ghost use Rattle.std.specs.Prelude.{◌≡◌, ◌<◌, ◌||◌, ◌==◌, IsTrue};
ghost use Rattle.std.specs.List.{list_all};
ghost use Rattle.std.specs.Str.{bytes_eq};
ghost use Rattle.rdf_meaning.specs.Characters.{is_letter, is_digit};
ghost use Rattle.table_meaning.specs.Names.{is_name, is_name_byte, begins_with_letter, is_capital_word, is_among, body_words, source_words, order_words, value_words, test_words, case_words};
ghost use Rattle.table_meaning.specs.Ints.{int_of, is_int_form, is_digits, begins_with_zero};

use rdf_spelling::{are_digits, is_digit};
use std::str;

fn is_letter(byte: u8) -> bool
    ensures { result ≡ is_letter byte }
{
    (b'A' <= byte && byte <= b'Z') || (b'a' <= byte && byte <= b'z')
}

fn is_name_byte(byte: u8) -> bool
    ensures { result ≡ is_name_byte byte }
{
    is_letter(byte) || is_digit(byte) || byte == b'_'
}

fn begins_with_letter(text: &[u8]) -> bool
    ensures { result ≡ begins_with_letter text.now }
{
    match text {
        [first, ..] => is_letter(*first),
        [] => false,
    }
}

fn is_word(text: &[u8], word: &str) -> bool
    ensures { result ≡ bytes_eq text.now word.now }
{
    text == word.as_bytes()
}

#[tactic(auto, unfolding(table_meaning::specs::Names::body_words))]
fn is_body_word(text: &[u8]) -> bool
    ensures { result ≡ is_among body_words text.now }
{
    is_word(text, "WITH")
        || is_word(text, "AS")
        || is_word(text, "UNION")
        || is_word(text, "ALL")
        || is_word(text, "SELECT")
        || is_word(text, "DISTINCT")
}

#[tactic(auto, unfolding(table_meaning::specs::Names::source_words))]
fn is_source_word(text: &[u8]) -> bool
    ensures { result ≡ is_among source_words text.now }
{
    is_word(text, "FROM")
        || is_word(text, "WHERE")
        || is_word(text, "JOIN")
        || is_word(text, "LEFT")
        || is_word(text, "ON")
}

#[tactic(auto, unfolding(table_meaning::specs::Names::order_words))]
fn is_order_word(text: &[u8]) -> bool
    ensures { result ≡ is_among order_words text.now }
{
    is_word(text, "ORDER")
        || is_word(text, "BY")
        || is_word(text, "DESC")
        || is_word(text, "LIMIT")
        || is_word(text, "OFFSET")
}

#[tactic(auto, unfolding(table_meaning::specs::Names::value_words))]
fn is_value_word(text: &[u8]) -> bool
    ensures { result ≡ is_among value_words text.now }
{
    is_word(text, "TRUE")
        || is_word(text, "FALSE")
        || is_word(text, "NULL")
        || is_word(text, "CAST")
        || is_word(text, "COALESCE")
}

#[tactic(auto, unfolding(table_meaning::specs::Names::test_words))]
fn is_test_word(text: &[u8]) -> bool
    ensures { result ≡ is_among test_words text.now }
{
    is_word(text, "INT")
        || is_word(text, "TEXT")
        || is_word(text, "TRUTH")
        || is_word(text, "AND")
        || is_word(text, "OR")
        || is_word(text, "NOT")
}

#[tactic(auto, unfolding(table_meaning::specs::Names::case_words))]
fn is_case_word(text: &[u8]) -> bool
    ensures { result ≡ is_among case_words text.now }
{
    is_word(text, "IS")
        || is_word(text, "CASE")
        || is_word(text, "WHEN")
        || is_word(text, "THEN")
        || is_word(text, "ELSE")
        || is_word(text, "END")
}

fn is_capital_word(text: &[u8]) -> bool
    ensures { result ≡ is_capital_word text.now }
{
    is_body_word(text)
        || is_source_word(text)
        || is_order_word(text)
        || is_value_word(text)
        || is_test_word(text)
        || is_case_word(text)
}

fn are_name_bytes(text: &[u8]) -> bool
    ensures { result ≡ list_all is_name_byte text.now }
{
    text.iter().all(|byte| is_name_byte(*byte))
}

/// Whether the bytes are a name: a letter and up to 63 letters, digits or `_`, and no capital word
/// of the SQL dialect.
#[tactic(auto, unfolding(table_meaning::specs::Names::is_name))]
pub fn is_name(text: &[u8]) -> bool
    ensures { result ≡ is_name text.now }
{
    begins_with_letter(text) && are_name_bytes(text) && text.len() <= 64 && !is_capital_word(text)
}

fn begins_with_zero(digits: &[u8]) -> bool
    ensures { result ≡ begins_with_zero digits.now }
{
    matches!(digits, [b'0', ..])
}

fn is_digits(text: &[u8]) -> bool
    ensures { result ≡ is_digits text.now }
{
    match text {
        [first, others @ ..] => {
            is_digit(*first) && are_digits(others) && (*first != b'0' || others.is_empty())
        }
        [] => false,
    }
}

fn is_int_form(text: &[u8]) -> bool
    ensures { result ≡ is_int_form text.now }
{
    match text {
        [b'-', digits @ ..] => is_digits(digits) && !begins_with_zero(digits),
        _ => is_digits(text),
    }
}

// Digits as a number, where it has 128 bits.
fn parsed(text: &[u8]) -> Option<i128>
    requires { IsTrue (is_int_form text.now) }
    ensures { result ≡ int_of text.now }
{
    match str::from_utf8(text) {
        Ok(digits) => match digits.parse::<i128>() {
            Ok(number) => Some(number),
            Err(_) => None,
        },
        Err(_) => None,
    }
}

/// The number that the bytes spell: decimal digits without a zero in front, `-` before a negative
/// number, within 128 bits. `None` where they spell none.
#[tactic(auto, unfolding(table_meaning::specs::Ints::int_of))]
pub fn read_int(text: &[u8]) -> Option<i128>
    ensures { result ≡ int_of text.now }
{
    if is_int_form(text) {
        parsed(text)
    } else {
        None
    }
}
