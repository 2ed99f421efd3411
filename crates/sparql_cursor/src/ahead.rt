//! What begins with the next token.

ghost use Rattle.std.specs.Prelude.{IsTrue, IsFalse};
ghost use Rattle.sparql_grammar_meaning.specs.Grammar.{Iri_, Term_, Verb_, Other_, Key_};
ghost use Rattle.sparql_grammar_meaning.specs.Table.{begins};
ghost use Rattle.sparql_cursor.specs.Outcomes.{SomeOf, NoneOf};

use crate::cursor::next;
use sparql_grammar_meaning::{Lexeme, Sign};

/// Whether an IRI begins here.
pub fn iri_ahead(tokens: &[Lexeme]) -> bool
    ensures yes { IsTrue result → SomeOf (begins Iri_) tokens.now }
    ensures no { IsFalse result → NoneOf (begins Iri_) tokens.now }
{
    match next(tokens) {
        Some((Lexeme::Iri(_), _)) => true,
        Some((Lexeme::Named(_), _)) => true,
        Some((Lexeme::PrefixName(_), _)) => true,
        _ => false,
    }
}

/// Whether a variable, an IRI or a literal begins here.
pub fn term_ahead(tokens: &[Lexeme]) -> bool
    ensures yes { IsTrue result → SomeOf (begins Term_) tokens.now }
    ensures no { IsFalse result → NoneOf (begins Term_) tokens.now }
{
    match next(tokens) {
        Some((Lexeme::Variable(_), _)) => true,
        Some((Lexeme::Iri(_), _)) => true,
        Some((Lexeme::Named(_), _)) => true,
        Some((Lexeme::PrefixName(_), _)) => true,
        Some((Lexeme::Text(_), _)) => true,
        Some((Lexeme::Count(_, _), _)) => true,
        Some((Lexeme::Literal(_), _)) => true,
        _ => false,
    }
}

/// Whether a predicate begins here.
pub fn verb_ahead(tokens: &[Lexeme]) -> bool
    ensures yes { IsTrue result → SomeOf (begins Verb_) tokens.now }
    ensures no { IsFalse result → NoneOf (begins Verb_) tokens.now }
{
    match next(tokens) {
        Some((Lexeme::Variable(_), _)) => true,
        Some((Lexeme::Iri(_), _)) => true,
        Some((Lexeme::Named(_), _)) => true,
        Some((Lexeme::PrefixName(_), _)) => true,
        Some((Lexeme::Sign(Sign::A), _)) => true,
        _ => false,
    }
}

/// Whether an element of a group that is no triple begins here.
pub fn other_ahead(tokens: &[Lexeme]) -> bool
    ensures yes { IsTrue result → SomeOf (begins Other_) tokens.now }
    ensures no { IsFalse result → NoneOf (begins Other_) tokens.now }
{
    match next(tokens) {
        Some((Lexeme::Sign(Sign::Optional), _)) => true,
        Some((Lexeme::Sign(Sign::OpenBrace), _)) => true,
        Some((Lexeme::Sign(Sign::Filter), _)) => true,
        _ => false,
    }
}

/// Whether a key of an order begins here.
pub fn key_ahead(tokens: &[Lexeme]) -> bool
    ensures yes { IsTrue result → SomeOf (begins Key_) tokens.now }
    ensures no { IsFalse result → NoneOf (begins Key_) tokens.now }
{
    match next(tokens) {
        Some((Lexeme::Variable(_), _)) => true,
        Some((Lexeme::Direction(_), _)) => true,
        _ => false,
    }
}
