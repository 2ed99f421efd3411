//! IRIs and texts.

ghost use Rattle.std.specs.Prelude.{◌≡◌, ◌≤◌, ◌+◌, ◌<◌, ◌∷◌, [], length, IsTrue, IfOk, IfSome};
ghost use Rattle.sparql_meaning.specs.Tokens.{body_at, closing, escape_in, has_short_escapes, iri_of, may_stand_for, quoted_at, stands, starts_with, text_of};
ghost use Rattle.sparql_meaning.specs.declared.token.Quoting.TheVariants as quoting;
ghost use Rattle.sparql_tokens.specs.Pieces.{IsWithin, piece};

use crate::classes::{is_iri_part, is_text_part};
use crate::escapes::escape_at;
use rdf_meaning::text_of;
use sparql_meaning::{Body, Escape, Found, Quoting, TokenKind};
use std::alloc::{AllocError, Global};

fn has_short_escapes(quoting: Quoting) -> bool
    ensures { result ≡ has_short_escapes quoting }
{
    match quoting {
        Quoting::Iri => false,
        Quoting::Text(_) | Quoting::Long(_) => true,
    }
}

// What stands there by itself.
fn stands(quoting: Quoting, c: char) -> bool
    ensures { result ≡ stands quoting c }
{
    match quoting {
        Quoting::Iri => is_iri_part(c),
        Quoting::Text(quote) => is_text_part(quote, c),
        Quoting::Long(_) => c != '\\',
    }
}

fn may_stand_for(quoting: Quoting, escape: Escape) -> bool
    ensures { result ≡ may_stand_for quoting escape }
{
    match quoting {
        Quoting::Iri => is_iri_part(escape.value),
        Quoting::Text(quote) => escape.chars == 1 || is_text_part(quote, escape.value),
        Quoting::Long(_) => true,
    }
}

fn escape_in(quoting: Quoting, chars: &[char]) -> Option<Escape>
    ensures value { result ≡ escape_in quoting chars.now }
    ensures within { IfSome result (λ e. e.chars ≤ length chars.now) }
{
    let escape = escape_at(has_short_escapes(quoting), chars)?;
    if may_stand_for(quoting, escape) {
        Some(escape)
    } else {
        None
    }
}

fn is_quote(chars: &[char], quote: char) -> bool
    ensures value { result ≡ starts_with (quote ∷ []) chars.now }
    ensures room { IsTrue result → 1 ≤ length chars.now }
{
    let Some((first, _)) = chars.split_first() else {
        return false
    };
    quote == *first
}

fn is_two_quotes(chars: &[char], quote: char) -> bool
    ensures value { result ≡ starts_with (quote ∷ quote ∷ []) chars.now }
    ensures room { IsTrue result → 2 ≤ length chars.now }
{
    let Some((first, rest)) = chars.split_first() else {
        return false
    };
    quote == *first && is_quote(rest, quote)
}

fn is_three_quotes(chars: &[char], quote: char) -> bool
    ensures value { result ≡ starts_with (quote ∷ quote ∷ quote ∷ []) chars.now }
    ensures room { IsTrue result → 3 ≤ length chars.now }
{
    let Some((first, rest)) = chars.split_first() else {
        return false
    };
    quote == *first && is_two_quotes(rest, quote)
}

// Whether the text is closed here.
fn closes(quoting: Quoting, chars: &[char]) -> bool
    ensures value { result ≡ starts_with (closing quoting) chars.now }
    ensures room { IsTrue result → length (closing quoting) ≤ length chars.now }
{
    match quoting {
        Quoting::Iri => is_quote(chars, '>'),
        Quoting::Text(quote) => is_quote(chars, quote),
        Quoting::Long(quote) => is_three_quotes(chars, quote),
    }
}

fn closing_len(quoting: Quoting) -> usize
    ensures value { result ≡ length (closing quoting) }
    ensures below { result ≤ 3 }
{
    match quoting {
        Quoting::Iri | Quoting::Text(_) => 1,
        Quoting::Long(_) => 3,
    }
}

// One character of a text as it is written, with its length.
fn piece_at(quoting: Quoting, first: char, rest: &[char]) -> Option<Escape>
    ensures value { result ≡ piece quoting first rest.now }
    ensures within { IfSome result (λ e. e.chars ≤ 1 + length rest.now) }
    ensures some { IfSome result (λ e. 0 < e.chars) }
{
    if first == '\\' {
        let escape = escape_in(quoting, rest)?;
        Some(Escape {
            value: escape.value,
            chars: 1 + escape.chars,
        })
    } else if stands(quoting, first) {
        Some(Escape {
            value: first,
            chars: 1,
        })
    } else {
        None
    }
}

/// The text in front, up to its closing marks.
#[tactic(auto, unfolding(sparql_meaning::specs::Tokens::body_at), using(crate::proofs::BodyLaws::body_paths))]
fn body_at(alloc: Global, quoting: Quoting, chars: &[char]) -> Result<Option<Body>, AllocError>
    ensures value { IfOk result (λ b. b ≡ body_at quoting chars.now) }
    ensures within { IfOk result (λ b. IfSome b (λ x. x.chars ≤ length chars.now)) }
{
    let mut text = String::new(alloc);
    let mut at = 0;
    let mut rest = chars;
    'pieces: while let Some((first, after)) = rest.split_first() {
        if closes(quoting, rest) {
            return Ok(Some(Body {
                text: text_of(alloc, text.as_str())?,
                chars: at + closing_len(quoting),
            }));
        }
        let Some(piece) = piece_at(quoting, *first, after) else {
            return Ok(None)
        };
        text.push(piece.value)?;
        at += piece.chars;
        rest = rest.split_at(piece.chars).1;
    }
    Ok(None)
}

/// The IRI behind its `<`.
pub(crate) fn iri_at(alloc: Global, chars: &[char]) -> Result<Option<Found>, AllocError>
    ensures value { IfOk result (λ f. f ≡ iri_of (body_at quoting.Iri chars.now)) }
    ensures within { IfOk result (IsWithin (1 + length chars.now)) }
{
    match body_at(alloc, Quoting::Iri, chars)? {
        Some(body) => Ok(Some(Found {
            kind: TokenKind::Iri(body.text),
            chars: 1 + body.chars,
        })),
        None => Ok(None),
    }
}

/// The text behind its first quote.
#[tactic(auto, unfolding(sparql_meaning::specs::Tokens::quoted_at))]
pub(crate) fn quoted_at(
    alloc: Global,
    quote: char,
    chars: &[char],
) -> Result<Option<Found>, AllocError>
    ensures value { IfOk result (λ f. f ≡ quoted_at quote chars.now) }
    ensures within { IfOk result (IsWithin (1 + length chars.now)) }
{
    if is_two_quotes(chars, quote) {
        match body_at(alloc, Quoting::Long(quote), &chars[2..])? {
            Some(body) => Ok(Some(Found {
                kind: TokenKind::LongText(body.text),
                chars: 3 + body.chars,
            })),
            None => Ok(Some(Found {
                kind: TokenKind::Text(text_of(alloc, "")?),
                chars: 2,
            })),
        }
    } else {
        match body_at(alloc, Quoting::Text(quote), chars)? {
            Some(body) => Ok(Some(Found {
                kind: TokenKind::Text(body.text),
                chars: 1 + body.chars,
            })),
            None => Ok(None),
        }
    }
}
