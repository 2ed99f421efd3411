//! The token at a place.

ghost use Rattle.std.specs.Prelude.{◌≡◌, ℕ, length, IfOk, IsTrue, None};
ghost use Rattle.sparql_meaning.specs.Tokens.{or_else, to_colon, token_at};
ghost use Rattle.sparql_tokens.specs.Pieces.{IsWithin};

use crate::classes::is_base;
use crate::marks::mark_at;
use crate::names::{blank_at, name_or_word, named_at, tag_at, variable_at};
use crate::numbers::number_at;
use crate::quoted::{iri_at, quoted_at};
use sparql_meaning::Found;
use std::alloc::{AllocError, Global};

fn or_else(first: Option<Found>, second: Option<Found>) -> Option<Found>
    ensures value { result ≡ or_else first second }
    ensures either { (n : ℕ) → IsWithin n first → IsWithin n second → IsWithin n result }
{
    match first {
        Some(found) => Some(found),
        None => second,
    }
}

/// The token that begins in front, at its longest; it may be known that it is no name with a prefix.
#[tactic(auto, unfolding(sparql_meaning::specs::Tokens::token_at))]
pub(crate) fn token_at(
    alloc: Global,
    chars: &[char],
    nameless: bool,
) -> Result<Option<Found>, AllocError>
    requires { IsTrue nameless → to_colon chars.now ≡ None }
    ensures value { IfOk result (λ f. f ≡ token_at chars.now) }
    ensures within { IfOk result (IsWithin (length chars.now)) }
{
    let Some((first, rest)) = chars.split_first() else {
        return Ok(None)
    };
    if *first == '<' {
        Ok(or_else(iri_at(alloc, rest)?, mark_at(chars)))
    } else if *first == '"' || *first == '\'' {
        quoted_at(alloc, *first, rest)
    } else if *first == '?' || *first == '$' {
        Ok(or_else(variable_at(alloc, rest)?, mark_at(chars)))
    } else if *first == '@' {
        tag_at(alloc, rest)
    } else if *first == ':' {
        named_at(alloc, &[], rest)
    } else if *first == '_' {
        blank_at(alloc, rest)
    } else if is_base(*first) {
        name_or_word(alloc, chars, nameless)
    } else {
        Ok(or_else(number_at(alloc, chars)?, mark_at(chars)))
    }
}
