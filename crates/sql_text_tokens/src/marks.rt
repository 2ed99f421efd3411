//! Capital words and signs.

ghost use Rattle.std.specs.Prelude.{◌≡◌};
ghost use Rattle.sql_meaning.specs.Marks as written;
ghost use Rattle.sql_meaning.specs.Tokens as cut;
ghost use Rattle.rdf_meaning.specs.Characters as characters;

use sql_meaning::{Mark, Opening};

/// How a mark is written.
pub fn mark_text(mark: Mark) -> &'static str
    ensures { result.now ≡ written.mark_bytes mark }
{
    match mark {
        Mark::With => "WITH",
        Mark::As => "AS",
        Mark::Union => "UNION",
        Mark::All => "ALL",
        Mark::Select => "SELECT",
        Mark::Distinct => "DISTINCT",
        Mark::From => "FROM",
        Mark::Where => "WHERE",
        Mark::Order => "ORDER",
        Mark::By => "BY",
        Mark::Limit => "LIMIT",
        Mark::Offset => "OFFSET",
        Mark::Join => "JOIN",
        Mark::Left => "LEFT",
        Mark::On => "ON",
        Mark::Desc => "DESC",
        Mark::True => "TRUE",
        Mark::False => "FALSE",
        Mark::Cast => "CAST",
        Mark::Null => "NULL",
        Mark::Int => "INT",
        Mark::Text => "TEXT",
        Mark::Truth => "TRUTH",
        Mark::And => "AND",
        Mark::Or => "OR",
        Mark::Not => "NOT",
        Mark::Is => "IS",
        Mark::Case => "CASE",
        Mark::When => "WHEN",
        Mark::Then => "THEN",
        Mark::Else => "ELSE",
        Mark::End => "END",
        Mark::Coalesce => "COALESCE",
        Mark::Open => "(",
        Mark::Close => ")",
        Mark::Comma => ",",
        Mark::Dot => ".",
        Mark::Equal => "=",
        Mark::Less => "<",
    }
}

const WORDS: [Mark; 33] = [
    Mark::With,
    Mark::As,
    Mark::Union,
    Mark::All,
    Mark::Select,
    Mark::Distinct,
    Mark::From,
    Mark::Where,
    Mark::Order,
    Mark::By,
    Mark::Limit,
    Mark::Offset,
    Mark::Join,
    Mark::Left,
    Mark::On,
    Mark::Desc,
    Mark::True,
    Mark::False,
    Mark::Cast,
    Mark::Null,
    Mark::Int,
    Mark::Text,
    Mark::Truth,
    Mark::And,
    Mark::Or,
    Mark::Not,
    Mark::Is,
    Mark::Case,
    Mark::When,
    Mark::Then,
    Mark::Else,
    Mark::End,
    Mark::Coalesce,
];

fn mark_among(marks: &[Mark], bytes: &[u8]) -> Option<Mark>
    ensures { result ≡ written.mark_among marks.now bytes.now }
{
    for mark in marks {
        if mark_text(*mark).as_bytes() == bytes {
            return Some(*mark);
        }
    }
    None
}

/// The capital word with these bytes.
pub fn word_of(bytes: &[u8]) -> Option<Mark>
    ensures { result ≡ written.word_of bytes.now }
{
    mark_among(&WORDS, bytes)
}

/// The sign that is this byte.
pub fn sign_of(byte: u8) -> Option<Mark>
    ensures { result ≡ written.sign_of byte }
{
    match byte {
        b'(' => Some(Mark::Open),
        b')' => Some(Mark::Close),
        b',' => Some(Mark::Comma),
        b'.' => Some(Mark::Dot),
        b'=' => Some(Mark::Equal),
        b'<' => Some(Mark::Less),
        _ => None,
    }
}

fn is_blank(byte: u8) -> bool
    ensures { result ≡ cut.is_blank byte }
{
    byte == b' ' || byte == b'\t' || byte == b'\r' || byte == b'\n'
}

/// Whether the byte is a letter, A to Z or a to z.
pub fn is_letter(byte: u8) -> bool
    ensures { result ≡ characters.is_letter byte }
{
    b'A' <= byte && byte <= b'Z' || b'a' <= byte && byte <= b'z'
}

pub fn is_digit(byte: u8) -> bool
    ensures { result ≡ characters.is_digit byte }
{
    b'0' <= byte && byte <= b'9'
}

/// Whether the byte may stand in a word, a name or a number.
pub fn is_run_byte(byte: u8) -> bool
    ensures { result ≡ cut.is_run_byte byte }
{
    is_letter(byte) || is_digit(byte) || byte == b'_'
}

/// What the byte begins.
pub fn opening_of(byte: u8) -> Opening
    ensures { result ≡ cut.opening_of byte }
{
    if is_blank(byte) {
        Opening::Blank
    } else if is_run_byte(byte) {
        Opening::Run
    } else if byte == b'\'' {
        Opening::Quote
    } else if byte == b'-' {
        Opening::Minus
    } else {
        match sign_of(byte) {
            Some(mark) => Opening::Sign(mark),
            None => Opening::Nothing,
        }
    }
}
