//! Labels of blank nodes and language tags.

ghost use Rattle.std.specs.Prelude.{◌≡◌, ◌≤◌, ◌++◌, length, IfOk, OnOk, IfSome, Some, None, map, string_bytes, encode_utf8_all, IsTrue, true};
ghost use Rattle.std.specs.List.{prefix_len};
ghost use Rattle.std.specs.Str.{all_scalars};
ghost use Rattle.rdf_meaning.specs.Characters.{is_between, is_label_part, is_label_start, is_base, is_name_mark};
ghost use Rattle.rdf_meaning.specs.Terms.{is_label_of, goes_on_as_label, is_tag};
ghost use Rattle.line_meaning.specs.Characters.{is_tag_part, lower};
ghost use Rattle.line_meaning.specs.Labels.{label_in};
ghost use Rattle.line_meaning.specs.Reader.{is_label_or_dot, without_last_dots};
ghost use Rattle.nt_lines.specs.Fronts.{front_label, label_chars_at};

use itoa::Buffer;
use std::alloc::{AllocError, Global};

fn is_between(low: char, high: char, c: char) -> bool
    ensures { result ≡ is_between low high c }
{
    low <= c && c <= high
}

// A letter of any alphabet.
fn is_base(c: char) -> bool
    ensures { result ≡ is_base c }
{
    is_between('A', 'Z', c)
        || is_between('a', 'z', c)
        || is_between('\u{C0}', '\u{D6}', c)
        || is_between('\u{D8}', '\u{F6}', c)
        || is_between('\u{F8}', '\u{2FF}', c)
        || is_between('\u{370}', '\u{37D}', c)
        || is_between('\u{37F}', '\u{1FFF}', c)
        || is_between('\u{200C}', '\u{200D}', c)
        || is_between('\u{2070}', '\u{218F}', c)
        || is_between('\u{2C00}', '\u{2FEF}', c)
        || is_between('\u{3001}', '\u{D7FF}', c)
        || is_between('\u{F900}', '\u{FDCF}', c)
        || is_between('\u{FDF0}', '\u{FFFD}', c)
        || is_between('\u{10000}', '\u{EFFFF}', c)
}

fn is_label_start(c: char) -> bool
    ensures { result ≡ is_label_start c }
{
    is_base(c) || c == '_' || c == ':'
}

fn is_name_mark(c: char) -> bool
    ensures { result ≡ is_name_mark c }
{
    c == '\u{B7}' || is_between('\u{300}', '\u{36F}', c) || is_between('\u{203F}', '\u{2040}', c)
}

fn is_label_part(c: char) -> bool
    ensures { result ≡ is_label_part c }
{
    is_label_start(c) || c == '-' || is_between('0', '9', c) || is_name_mark(c)
}

// Whether the characters behind the first one of a label are in order.
fn goes_on_as_label(chars: &[char]) -> bool
    ensures { result ≡ goes_on_as_label chars.now }
{
    let mut rest = chars;
    'characters: while let Some((c, tail)) = rest.split_first() {
        let fits = if *c == '.' {
            !tail.is_empty()
        } else {
            is_label_part(*c)
        };
        if !fits {
            return false;
        }
        rest = tail;
    }
    true
}

fn is_label(chars: &[char]) -> bool
    ensures { result ≡ is_label_of chars.now }
{
    match chars.split_first() {
        Some((first, rest)) => (is_label_start(*first) || is_between('0', '9', *first))
            && goes_on_as_label(rest),
        None => false,
    }
}

fn count_label_or_dot(chars: &[char]) -> usize
    ensures value { result ≡ prefix_len is_label_or_dot chars.now }
    ensures within { result ≤ length chars.now }
{
    for (i, c) in chars.iter().enumerate() {
        if !(is_label_part(*c) || *c == '.') {
            return i;
        }
    }
    chars.len()
}

#[tactic(auto, using(crate::proofs::Runs::last_dot, crate::proofs::Runs::last_other))]
fn without_last_dots(chars: &[char]) -> &[char]
    ensures value { result.now ≡ without_last_dots chars.now }
    ensures within { length result.now ≤ length chars.now }
{
    let mut kept = chars;
    'dots: while let Some((last, front)) = kept.split_last() {
        if *last != '.' {
            break;
        }
        kept = front;
    }
    kept
}

/// The label at the front, and what follows it.
pub(crate) fn label_at(chars: &[char]) -> Option<(&[char], &[char])>
    ensures value { front_label result ≡ label_chars_at chars.now }
    ensures label { IfSome result (λ x. IsTrue (is_label_of x.0.now)) }
{
    let label = without_last_dots(&chars[..count_label_or_dot(chars)]);
    if !is_label(label) {
        return None;
    }
    Some((label, &chars[label.len()..]))
}

/// How many characters at the front may stand in a language tag.
pub(crate) fn count_tag_parts(chars: &[char]) -> usize
    ensures value { result ≡ prefix_len is_tag_part chars.now }
    ensures within { result ≤ length chars.now }
{
    for (i, c) in chars.iter().enumerate() {
        if !(c.to_digit(36).is_some() || *c == '-') {
            return i;
        }
    }
    chars.len()
}

/// Whether this is a language tag in lower case.
pub(crate) fn is_tag(bytes: &[u8]) -> bool
    ensures { result ≡ is_tag bytes.now }
{
    let mut is_first = true;
    let mut has_part = false;
    for byte in bytes {
        if *byte == b'-' {
            if !has_part {
                return false;
            }
            is_first = false;
            has_part = false;
        } else if byte.is_ascii_lowercase() || (!is_first && byte.is_ascii_digit()) {
            has_part = true;
        } else {
            return false;
        }
    }
    has_part
}

/// The text of these characters in lower case, where they are ASCII.
#[tactic(auto, using(crate::proofs::Texts::lower_next))]
pub(crate) fn lower_text(alloc: Global, chars: &[char]) -> Result<String, AllocError>
    ensures { IfOk result (λ text. string_bytes text ≡ encode_utf8_all (map lower chars.now)) }
{
    let mut text = String::new(alloc);
    for c in chars {
        text.push(c.to_ascii_lowercase())?;
    }
    Ok(text)
}

// Appends these characters.
#[tactic(auto, using(crate::proofs::Texts::appended_next, crate::proofs::Texts::scalars_next))]
fn push_chars(text: &mut String, chars: &[char]) -> Result<(), AllocError>
    ensures bytes { OnOk result (string_bytes text.new ≡ string_bytes text.old ++ encode_utf8_all chars.now) }
    ensures scalars { OnOk result (all_scalars chars.now ≡ true) }
{
    for c in chars {
        text.push(*c)?;
    }
    Ok(())
}

/// The text of these characters.
pub fn text_of_chars(alloc: Global, chars: &[char]) -> Result<String, AllocError>
    ensures bytes { IfOk result (λ text. string_bytes text ≡ encode_utf8_all chars.now) }
    ensures scalars { IfOk result (λ _. all_scalars chars.now ≡ true) }
{
    let mut text = String::new(alloc);
    push_chars(&mut text, chars)?;
    Ok(text)
}

/// The label that a label of this data file stands for.
pub(crate) fn label_in(alloc: Global, file: u32, label: &[char]) -> Result<String, AllocError>
    ensures bytes { IfOk result (λ text. string_bytes text ≡ label_in file (encode_utf8_all label.now)) }
    ensures scalars { IfOk result (λ _. all_scalars label.now ≡ true) }
{
    let mut number = Buffer::new();
    // `f`, at most ten digits and `b` stand before the label.
    let mut text = String::with_capacity(alloc, label.len() + 12)?;
    text.push('f')?;
    text.push_str(number.format(file))?;
    text.push('b')?;
    push_chars(&mut text, label)?;
    Ok(text)
}
