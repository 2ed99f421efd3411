//! The first of some tokens, and those behind it.

ghost use Rattle.std.specs.Prelude.{false, ◌≡◌, ◌<◌, ◌∷◌, [], IfOk, IfErr, IfSome, IsTrue, IsFalse, MatchOption, length};
ghost use Rattle.sql_meaning.specs.Grammar as grammar;
ghost use Rattle.sql_meaning.specs.Kinds.{a_mark, a_name, is, kind};
ghost use Rattle.sql_meaning.specs.declared.token.Token.TheVariants as spelled;
ghost use Rattle.sql_text_cursor.specs.Outcomes.{First, Fault};
ghost use Rattle.sql_text_cursor.specs.Table.{NoneOf, SomeOf};

use crate::refusal::Refusal;
use rdf_meaning::Text;
use sql_meaning::{Mark, Placed, Token};
use std::alloc::Global;

/// The first token, and those behind it.
#[tactic(auto, using(crate::specs::Tests::first_of))]
pub fn next(tokens: &[Placed]) -> Option<(&Token, &[Placed])>
    ensures first { MatchOption result (tokens.now ≡ []) (λ r. First tokens.now r.0.now r.1.now) }
    ensures shorter { IfSome result (λ r. length r.1.now < length tokens.now) }
{
    let (first, rest) = tokens.split_first()?;
    Some((&first.token, rest))
}

#[tactic(auto, using(crate::specs::Tests::kind_tests))]
fn is_mark(mark: Mark, token: &Token) -> bool
    ensures { result ≡ is (a_mark mark) (kind token.now) }
{
    match token {
        Token::Mark(first) => *first == mark,
        _ => false,
    }
}

#[tactic(auto, using(crate::specs::Tests::kind_tests))]
fn name_in(token: &Token) -> Option<&Text>
    ensures { MatchOption result (is a_name (kind token.now) ≡ false) (λ s. token.now ≡ spelled.Name s.now) }
{
    match token {
        Token::Name(name) => Some(name),
        _ => None,
    }
}

/// The tokens behind a mark in front.
#[tactic(auto, using(crate::specs::Tests::token_tests))]
pub fn after_mark(mark: Mark, tokens: &[Placed]) -> Option<&[Placed]>
    ensures first { MatchOption result (NoneOf (a_mark mark ∷ []) tokens.now) (λ rest. First tokens.now (spelled.Mark mark) rest.now) }
    ensures shorter { IfSome result (λ rest. length rest.now < length tokens.now) }
{
    let (first, rest) = next(tokens)?;
    if is_mark(mark, first) {
        Some(rest)
    } else {
        None
    }
}

/// Whether the mark is in front.
#[tactic(auto, using(crate::specs::Tests::token_tests))]
pub fn stands(mark: Mark, tokens: &[Placed]) -> bool
    ensures yes { IsTrue result → SomeOf (a_mark mark ∷ []) tokens.now }
    ensures no { IsFalse result → NoneOf (a_mark mark ∷ []) tokens.now }
{
    match after_mark(mark, tokens) {
        Some(_) => true,
        None => false,
    }
}

/// The tokens behind a mark that has to be in front.
#[tactic(auto, using(crate::specs::Tests::read_tests))]
pub fn expect(mark: Mark, tokens: &[Placed]) -> Result<&[Placed], Refusal>
    ensures reads { IfOk result (λ rest. First tokens.now (spelled.Mark mark) rest.now) }
    ensures shorter { IfOk result (λ rest. length rest.now < length tokens.now) }
    ensures refuses { IfErr result (λ e. Fault [] (grammar.mark mark) tokens.now e) }
{
    match after_mark(mark, tokens) {
        Some(rest) => Ok(rest),
        None => Err(Refusal::Syntax { left: tokens.len() }),
    }
}

// A name in front, and the tokens behind it.
#[tactic(auto, using(crate::specs::Tests::token_tests))]
fn after_name(tokens: &[Placed]) -> Option<(&Text, &[Placed])>
    ensures first { MatchOption result (NoneOf (a_name ∷ []) tokens.now) (λ r. First tokens.now (spelled.Name r.0.now) r.1.now) }
    ensures shorter { IfSome result (λ r. length r.1.now < length tokens.now) }
{
    let (first, rest) = next(tokens)?;
    let name = name_in(first)?;
    Some((name, rest))
}

/// A name that has to be in front, and the tokens behind it.
#[tactic(auto, using(crate::specs::Tests::read_tests))]
pub fn read_name(alloc: Global, tokens: &[Placed]) -> Result<(Text, &[Placed]), Refusal>
    ensures reads { IfOk result (λ r. First tokens.now (spelled.Name r.0) r.1.now) }
    ensures shorter { IfOk result (λ r. length r.1.now < length tokens.now) }
    ensures refuses { IfErr result (λ e. Fault [] grammar.name tokens.now e) }
{
    match after_name(tokens) {
        Some((name, rest)) => Ok((name.copy(alloc)?, rest)),
        None => Err(Refusal::Syntax { left: tokens.len() }),
    }
}
