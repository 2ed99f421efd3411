//! What stands in front.

ghost use Rattle.std.specs.Prelude.{MatchOption, IsTrue, IsFalse, ◌∷◌, [], ◌≡◌};
ghost use Rattle.sparql_grammar_meaning.specs.Grammar.{function, compare, test, sign, Test_, Value_};
ghost use Rattle.sparql_grammar_meaning.specs.Table.{begins};
ghost use Rattle.sparql_grammar_meaning.specs.declared.lexeme.Lexeme.TheVariants as lexeme;
ghost use Rattle.sparql_grammar_meaning.specs.declared.lexeme.Sign.TheVariants as signs;
ghost use Rattle.sparql_cursor.specs.Outcomes.{IsNot, SomeOf, NoneOf};

use query_meaning::{CompareOp, TermTest};
use sparql_cursor::next;
use sparql_grammar_meaning::{Function, Lexeme, Sign};

pub(crate) fn after_function(tokens: &[Lexeme]) -> Option<(Function, &[Lexeme])>
    ensures { MatchOption result (IsNot function tokens.now) (λ r. tokens.now ≡ lexeme.Function r.0 ∷ r.1.now) }
{
    match next(tokens) {
        Some((Lexeme::Function(f), rest)) => Some((*f, rest)),
        _ => None,
    }
}

/// Whether a function is in front.
pub(crate) fn function_ahead(tokens: &[Lexeme]) -> bool
    ensures yes { IsTrue result → SomeOf (function ∷ []) tokens.now }
    ensures no { IsFalse result → IsNot function tokens.now }
{
    match next(tokens) {
        Some((Lexeme::Function(_), _)) => true,
        _ => false,
    }
}

/// Whether a bracket opens here.
pub(crate) fn bracket_ahead(tokens: &[Lexeme]) -> bool
    ensures yes { IsTrue result → SomeOf (sign signs.OpenBracket ∷ []) tokens.now }
    ensures no { IsFalse result → IsNot (sign signs.OpenBracket) tokens.now }
{
    match next(tokens) {
        Some((Lexeme::Sign(Sign::OpenBracket), _)) => true,
        _ => false,
    }
}

pub(crate) fn after_compare(tokens: &[Lexeme]) -> Option<(CompareOp, &[Lexeme])>
    ensures { MatchOption result (IsNot compare tokens.now) (λ r. tokens.now ≡ lexeme.Compare r.0 ∷ r.1.now) }
{
    match next(tokens) {
        Some((Lexeme::Compare(op), rest)) => Some((*op, rest)),
        _ => None,
    }
}

pub(crate) fn after_test(tokens: &[Lexeme]) -> Option<(TermTest, &[Lexeme])>
    ensures { MatchOption result (IsNot test tokens.now) (λ r. tokens.now ≡ lexeme.Test r.0 ∷ r.1.now) }
{
    match next(tokens) {
        Some((Lexeme::Test(t), rest)) => Some((*t, rest)),
        _ => None,
    }
}

/// Whether `bound`, `sameTerm` or a test of a term's kind is in front.
pub fn test_ahead(tokens: &[Lexeme]) -> bool
    ensures yes { IsTrue result → SomeOf (begins Test_) tokens.now }
    ensures no { IsFalse result → NoneOf (begins Test_) tokens.now }
{
    match next(tokens) {
        Some((Lexeme::Sign(Sign::Bound), _)) => true,
        Some((Lexeme::Sign(Sign::SameTerm), _)) => true,
        Some((Lexeme::Test(_), _)) => true,
        _ => false,
    }
}

/// Whether a value begins here.
pub(crate) fn value_ahead(tokens: &[Lexeme]) -> bool
    ensures yes { IsTrue result → SomeOf (begins Value_) tokens.now }
    ensures no { IsFalse result → NoneOf (begins Value_) tokens.now }
{
    match next(tokens) {
        Some((Lexeme::Variable(_), _)) => true,
        Some((Lexeme::Iri(_), _)) => true,
        Some((Lexeme::Named(_), _)) => true,
        Some((Lexeme::PrefixName(_), _)) => true,
        Some((Lexeme::Text(_), _)) => true,
        Some((Lexeme::Count(_, _), _)) => true,
        Some((Lexeme::Literal(_), _)) => true,
        Some((Lexeme::Function(_), _)) => true,
        Some((Lexeme::Sign(Sign::OpenBracket), _)) => true,
        _ => false,
    }
}
