//! Texts between two marks, with their escapes.

ghost use Rattle.std.specs.Prelude.{◌≡◌, ◌≤◌, ◌+◌, length, IfOk, IfSome};
ghost use Rattle.line_meaning.specs.Characters.{close_of, stands_raw, letter_escape, short_escape, hex_from, digits_of_mark};
ghost use Rattle.std.specs.Prelude.{◌<◌, nat_lt, if◌then◌else◌, Some, None};
ghost use Rattle.std.specs.Char.{digit_value};
ghost use Rattle.line_meaning.specs.Reader.{code_at, escape_at, piece_at, text_at};
ghost use Rattle.rdf_meaning.specs.Spelling.{is_escaped};
ghost use Rattle.nt_lines.specs.Fronts.{front_text};

use line_meaning::Enclosure;
use std::alloc::{AllocError, Global};

// A character never stands in an IRI by itself.
fn is_escaped(c: char) -> bool
    ensures { result ≡ is_escaped c }
{
    c <= ' ' || matches!(c, '<' | '>' | '"' | '{' | '}' | '|' | '^' | '`' | '\\')
}

fn stands_raw(form: Enclosure, c: char) -> bool
    ensures { result ≡ stands_raw form c }
{
    match form {
        Enclosure::Iri => !is_escaped(c),
        Enclosure::Text => !matches!(c, '"' | '\\' | '\n' | '\r'),
    }
}

fn close_of(form: Enclosure) -> char
    ensures { result ≡ close_of form }
{
    match form {
        Enclosure::Iri => '>',
        Enclosure::Text => '"',
    }
}

fn letter_escape(c: char) -> Option<char>
    ensures { result ≡ letter_escape c }
{
    match c {
        't' => Some('\t'),
        'b' => Some('\u{8}'),
        'n' => Some('\n'),
        'r' => Some('\r'),
        'f' => Some('\u{c}'),
        '"' => Some('"'),
        '\'' => Some('\''),
        '\\' => Some('\\'),
        _ => None,
    }
}

fn short_escape(form: Enclosure, c: char) -> Option<char>
    ensures { result ≡ short_escape form c }
{
    match form {
        Enclosure::Iri => None,
        Enclosure::Text => letter_escape(c),
    }
}

// The value of a digit of base sixteen.
fn hex_digit(c: char) -> Option<u32>
    ensures value { result ≡ (if nat_lt (digit_value c) 16 then Some (digit_value c) else None) }
    ensures small { IfSome result (λ d. d < 16) }
{
    c.to_digit(16)
}

// The number that at most eight digits of base sixteen write.
#[tactic(auto, using(crate::proofs::Numbers::below_none, crate::proofs::Numbers::below_next, crate::proofs::Numbers::below_fits))]
fn hex_number(digits: &[char]) -> Option<u32>
    requires { length digits.now ≤ 8 }
    ensures { result ≡ hex_from 0 digits.now }
{
    let mut number = 0u32;
    for digit in digits {
        number = number * 16 + hex_digit(*digit)?;
    }
    Some(number)
}

// The character that so many digits at the front stand for.
#[tactic(auto, unfolding(line_meaning::specs::Reader::code_at))]
fn code_at(count: usize, chars: &[char]) -> Option<char>
    requires { count ≤ 8 }
    ensures value { result ≡ code_at count chars.now }
    ensures within { IfSome result (λ _. count ≤ length chars.now) }
{
    if count > chars.len() {
        return None;
    }
    let number = hex_number(&chars[..count])?;
    char::from_u32(number)
}

// How many digits follow `u` and `U`.
fn digits_of_mark(c: char) -> Option<usize>
    ensures value { result ≡ digits_of_mark c }
    ensures few { IfSome result (λ n. n ≤ 8) }
{
    match c {
        'u' => Some(4),
        'U' => Some(8),
        _ => None,
    }
}

// What an escape stands for, behind its backslash, and its length there.
#[tactic(auto, unfolding(line_meaning::specs::Reader::escape_at))]
fn escape_at(form: Enclosure, chars: &[char]) -> Option<(char, usize)>
    ensures value { result ≡ escape_at form chars.now }
    ensures within { IfSome result (λ piece. piece.1 ≤ length chars.now) }
{
    let (mark, rest) = chars.split_first()?;
    match digits_of_mark(*mark) {
        Some(count) => Some((code_at(count, rest)?, count + 1)),
        None => Some((short_escape(form, *mark)?, 1)),
    }
}

// What the front stands for, and how many characters behind the first belong to it.
#[tactic(auto, unfolding(line_meaning::specs::Reader::piece_at))]
fn piece_at(form: Enclosure, first: char, rest: &[char]) -> Option<(char, usize)>
    ensures value { result ≡ piece_at form first rest.now }
    ensures within { IfSome result (λ piece. piece.1 ≤ length rest.now) }
{
    if first == '\\' {
        escape_at(form, rest)
    } else if stands_raw(form, first) {
        Some((first, 0))
    } else {
        None
    }
}

/// The text up to the mark that closes it, and what follows the mark.
#[tactic(auto, unfolding(line_meaning::specs::Reader::text_at), using(crate::proofs::Pieces::text_stops, crate::proofs::Pieces::text_goes_on, crate::proofs::Pieces::text_breaks))]
pub(crate) fn text_at(
    alloc: Global,
    form: Enclosure,
    chars: &[char],
) -> Result<Option<(String, &[char])>, AllocError>
    ensures { IfOk result (λ x. front_text x ≡ text_at form chars.now) }
{
    let mut text = String::new(alloc);
    let mut rest = chars;
    'pieces: while let Some((first, tail)) = rest.split_first() {
        if *first == close_of(form) {
            return Ok(Some((text, tail)));
        }
        let Some((c, count)) = piece_at(form, *first, tail) else {
            return Ok(None);
        };
        text.push(c)?;
        rest = &tail[count..];
    }
    Ok(None)
}
