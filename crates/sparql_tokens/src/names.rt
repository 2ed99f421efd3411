//! Variables, tags, blank nodes, prefixed names and words.

ghost use Rattle.std.specs.Prelude.{◌≡◌, ◌≤◌, ◌<◌, ◌+◌, length, IsTrue, map, IfOk, IfSome, None, encode_utf8_all};
ghost use Rattle.std.specs.List.{filter};
ghost use Rattle.rdf_meaning.specs.Characters.{is_letter};
ghost use Rattle.sparql_meaning.specs.Tokens.{blank_at, head, is_no_backslash, label_len, later_tag_len, local_len, lower, name_len, named_at, name_or_word, part_len, tag_at, tag_len, tag_tail_len, to_colon, variable_at, word_at};
ghost use Rattle.sparql_tokens.specs.Nameless.{IsEnd, IsNameless};
ghost use Rattle.sparql_tokens.specs.Pieces.{IsWithin};
ghost use Rattle.sparql_tokens.specs.Table.{goes_on};

use crate::classes::{is_base, is_digit, is_letter, is_part, is_start, is_tag_part};
use crate::escapes::escaped_len;
use crate::runs::{head, letters_len, variable_len, word_len};
use crate::words::word_of;
use rdf_meaning::{Text, text_of};
use sparql_meaning::{Found, LanguageTag, TokenKind};
use std::alloc::{AllocError, Global};

/// The characters as a text.
pub(crate) fn text_from(alloc: Global, chars: &[char]) -> Result<Text, AllocError>
    ensures { IfOk result (λ t. t ≡ encode_utf8_all chars.now) }
{
    let text: String = chars.iter().copied().collect(alloc)?;
    text_of(alloc, text.as_str())
}

/// The variable behind its `?` or `$`.
#[tactic(auto, unfolding(sparql_meaning::specs::Tokens::variable_at))]
pub(crate) fn variable_at(alloc: Global, chars: &[char]) -> Result<Option<Found>, AllocError>
    ensures value { IfOk result (λ f. f ≡ variable_at chars.now) }
    ensures within { IfOk result (IsWithin (1 + length chars.now)) }
{
    let n = variable_len(chars);
    if n == 0 {
        return Ok(None);
    }
    let kind = TokenKind::Variable(text_from(alloc, &chars[..n])?);
    Ok(Some(Found { kind, chars: 1 + n }))
}

// How many characters the later parts of a tag have.
fn later_tag_len(chars: &[char]) -> usize
    ensures value { result ≡ later_tag_len chars.now }
    ensures within { result ≤ length chars.now }
{
    for (i, c) in chars.iter().enumerate() {
        if !(is_tag_part(*c) || *c == '-' && is_tag_part(head(&chars[i + 1..]))) {
            return i;
        }
    }
    chars.len()
}

fn tag_tail_len(chars: &[char]) -> usize
    ensures value { result ≡ tag_tail_len chars.now }
    ensures within { result ≤ length chars.now }
{
    if head(chars) == '-' {
        later_tag_len(chars)
    } else {
        0
    }
}

#[tactic(auto, unfolding(sparql_meaning::specs::Tokens::tag_len))]
fn tag_len(chars: &[char]) -> usize
    ensures value { result ≡ tag_len chars.now }
    ensures within { result ≤ length chars.now }
{
    let first = letters_len(chars);
    first + tag_tail_len(&chars[first..])
}

fn lower(alloc: Global, chars: &[char]) -> Result<Text, AllocError>
    ensures { IfOk result (λ t. t ≡ lower chars.now) }
{
    let text: String = chars.iter().map(|c| c.to_ascii_lowercase()).collect(alloc)?;
    text_of(alloc, text.as_str())
}

/// The language tag behind its `@`.
#[tactic(auto, unfolding(sparql_meaning::specs::Tokens::tag_at))]
pub(crate) fn tag_at(alloc: Global, chars: &[char]) -> Result<Option<Found>, AllocError>
    ensures value { IfOk result (λ f. f ≡ tag_at chars.now) }
    ensures within { IfOk result (IsWithin (1 + length chars.now)) }
{
    let n = tag_len(chars);
    let text = lower(alloc, &chars[..n])?;
    match LanguageTag::new(text) {
        Some(tag) => Ok(Some(Found {
            kind: TokenKind::Tag(tag),
            chars: 1 + n,
        })),
        None => Ok(None),
    }
}

// The length of what a name goes on with, or 0.
fn part_len(local: bool, chars: &[char]) -> usize
    ensures value { result ≡ part_len local chars.now }
    ensures within { result ≤ length chars.now }
{
    let Some((first, _)) = chars.split_first() else {
        return 0
    };
    if is_part(*first) || local && *first == ':' {
        1
    } else if local {
        escaped_len(chars)
    } else {
        0
    }
}

// How many characters a name goes on with; full stops count where something follows them.
#[tactic(auto, unfolding(sparql_meaning::specs::Tokens::name_len), using(crate::proofs::NameLaws::dot_step, crate::proofs::NameLaws::part_step))]
fn name_len(local: bool, chars: &[char]) -> usize
    ensures value { result ≡ name_len local chars.now }
    ensures within { result ≤ length chars.now }
{
    let mut end = 0;
    let mut at = 0;
    let mut rest = chars;
    'parts: while let Some((first, after)) = rest.split_first() {
        if *first == '.' {
            at += 1;
            rest = after;
        } else {
            let n = part_len(local, rest);
            if n == 0 {
                return end;
            }
            at += n;
            end = at;
            rest = rest.split_at(n).1;
        }
    }
    end
}

// How many characters the label of a blank node has.
fn label_len(chars: &[char]) -> usize
    ensures value { result ≡ label_len chars.now }
    ensures within { result ≤ length chars.now }
{
    let Some((first, rest)) = chars.split_first() else {
        return 0
    };
    if is_start(*first) || is_digit(*first) {
        1 + name_len(false, rest)
    } else {
        0
    }
}

/// The blank node behind its `_`.
#[tactic(auto, unfolding(sparql_meaning::specs::Tokens::blank_at))]
pub(crate) fn blank_at(alloc: Global, chars: &[char]) -> Result<Option<Found>, AllocError>
    ensures value { IfOk result (λ f. f ≡ blank_at chars.now) }
    ensures within { IfOk result (IsWithin (1 + length chars.now)) }
{
    let Some((first, rest)) = chars.split_first() else {
        return Ok(None)
    };
    let n = label_len(rest);
    if *first != ':' || n == 0 {
        return Ok(None);
    }
    let kind = TokenKind::Blank(text_from(alloc, &rest[..n])?);
    Ok(Some(Found { kind, chars: 2 + n }))
}

fn local_len(chars: &[char]) -> usize
    ensures value { result ≡ local_len chars.now }
    ensures within { result ≤ length chars.now }
{
    let Some((first, _)) = chars.split_first() else {
        return 0
    };
    if is_start(*first) || *first == ':' || is_digit(*first) || escaped_len(chars) != 0 {
        name_len(true, chars)
    } else {
        0
    }
}

fn is_no_backslash(c: char) -> bool
    ensures { result ≡ is_no_backslash c }
{
    c != '\\'
}

// A local name without the backslashes of its escapes.
fn unescaped(alloc: Global, chars: &[char]) -> Result<Text, AllocError>
    ensures { IfOk result (λ t. t ≡ encode_utf8_all (filter is_no_backslash chars.now)) }
{
    let text: String = chars
        .iter()
        .copied()
        .filter(|c| is_no_backslash(*c))
        .collect(alloc)?;
    text_of(alloc, text.as_str())
}

/// The name of this prefix whose local name stands behind its colon.
#[tactic(auto, unfolding(sparql_meaning::specs::Tokens::named_at))]
pub(crate) fn named_at(
    alloc: Global,
    prefix: &[char],
    chars: &[char],
) -> Result<Option<Found>, AllocError>
    ensures value { IfOk result (λ f. f ≡ named_at prefix.now chars.now) }
    ensures within { IfOk result (IsWithin (length prefix.now + 1 + length chars.now)) }
{
    let n = local_len(chars);
    let kind = TokenKind::Named(text_from(alloc, prefix)?, unescaped(alloc, &chars[..n])?);
    Ok(Some(Found {
        kind,
        chars: prefix.len() + 1 + n,
    }))
}

// What a prefix goes on with: a full stop isn't its last character.
fn goes_on(c: char, rest: &[char]) -> bool
    ensures { result ≡ goes_on c rest.now }
{
    is_part(c) || c == '.' && head(rest) != ':'
}

// How many characters of a prefix stand before its colon.
#[tactic(auto, using(crate::proofs::NameLaws::colon_step, crate::proofs::NameLaws::colon_begins))]
fn to_colon(chars: &[char]) -> Option<usize>
    ensures value { result ≡ to_colon chars.now }
    ensures within { IfSome result (λ n. n < length chars.now) }
{
    let mut at = 0;
    let mut rest = chars;
    'chars: while let Some((first, after)) = rest.split_first() {
        if *first == ':' {
            return Some(at);
        }
        if !goes_on(*first, after) {
            return None;
        }
        at += 1;
        rest = after;
    }
    None
}

// The same, where it may be known that no colon ends a prefix here.
fn colon_ahead(chars: &[char], nameless: bool) -> Option<usize>
    requires { IsTrue nameless → to_colon chars.now ≡ None }
    ensures value { result ≡ to_colon chars.now }
    ensures within { IfSome result (λ n. n < length chars.now) }
{
    if nameless { None } else { to_colon(chars) }
}

// From how many of the first characters no prefix of a name begins.
#[tactic(auto, using(crate::specs::Nameless::nameless_paths))]
fn nameless_run(chars: &[char]) -> usize
    ensures { IsNameless result chars.now }
{
    let mut at = 0;
    let mut rest = chars;
    'chars: while let Some((first, after)) = rest.split_first() {
        if *first == ':' {
            return 0;
        }
        if !goes_on(*first, after) {
            return at;
        }
        at += 1;
        rest = after;
    }
    at
}

// The same, where a name or a word begins in front.
#[tactic(auto, using(crate::specs::Nameless::nameless_paths))]
fn nameless_len(chars: &[char]) -> usize
    ensures { IsNameless result chars.now }
{
    if is_base(head(chars)) {
        nameless_run(chars)
    } else {
        0
    }
}

/// From how many of the first characters no prefix of a name begins, where it may be known of some of them. So each character
/// is looked at once for all the words of one run.
pub(crate) fn nameless_still(chars: &[char], known: usize) -> usize
    requires { IsNameless known chars.now }
    ensures { IsNameless result chars.now }
{
    if known > 0 {
        known
    } else {
        nameless_len(chars)
    }
}

/// What of these characters is left where the text goes on.
#[tactic(auto, using(crate::specs::Nameless::left_names))]
pub(crate) fn nameless_left(known: usize, chars: &[char], next: &[char]) -> usize
    requires known { IsNameless known chars.now }
    requires behind { IsEnd next.now chars.now }
    ensures { IsNameless result next.now }
{
    known.saturating_sub(chars.len() - next.len())
}

/// The word in front.
#[tactic(auto, unfolding(sparql_meaning::specs::Tokens::word_at))]
fn word_at(chars: &[char]) -> Option<Found>
    requires { IsTrue (is_letter (head chars.now)) }
    ensures value { result ≡ word_at chars.now }
    ensures within { IsWithin (length chars.now) result }
{
    let n = word_len(chars);
    Some(Found {
        kind: TokenKind::Word(word_of(&chars[..n])),
        chars: n,
    })
}

/// A name where a colon ends its prefix, else a word; it may be known that no colon does.
pub(crate) fn name_or_word(
    alloc: Global,
    chars: &[char],
    nameless: bool,
) -> Result<Option<Found>, AllocError>
    requires { IsTrue nameless → to_colon chars.now ≡ None }
    ensures value { IfOk result (λ f. f ≡ name_or_word chars.now (to_colon chars.now)) }
    ensures within { IfOk result (IsWithin (length chars.now)) }
{
    match colon_ahead(chars, nameless) {
        Some(n) => named_at(alloc, &chars[..n], &chars[n + 1..]),
        None => {
            if is_letter(head(chars)) {
                Ok(word_at(chars))
            } else {
                Ok(None)
            }
        }
    }
}
