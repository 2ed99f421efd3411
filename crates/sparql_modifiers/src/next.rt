//! What stands in front.

ghost use Rattle.std.specs.Prelude.{MatchOption, ◌∷◌, ◌≡◌};
ghost use Rattle.sparql_grammar_meaning.specs.Grammar.{direction, count};
ghost use Rattle.sparql_grammar_meaning.specs.declared.lexeme.Lexeme.TheVariants as lexeme;
ghost use Rattle.sparql_cursor.specs.Outcomes.{IsNot};

use rdf_meaning::Term;
use sparql_cursor::next;
use sparql_grammar_meaning::Lexeme;

pub(crate) fn after_direction(tokens: &[Lexeme]) -> Option<(bool, &[Lexeme])>
    ensures { MatchOption result (IsNot direction tokens.now) (λ r. tokens.now ≡ lexeme.Direction r.0 ∷ r.1.now) }
{
    match next(tokens) {
        Some((Lexeme::Direction(down), rest)) => Some((*down, rest)),
        _ => None,
    }
}

/// A count's term and number, and the tokens behind it.
pub(crate) fn after_count(tokens: &[Lexeme]) -> Option<(&Term, u64, &[Lexeme])>
    ensures { MatchOption result (IsNot count tokens.now) (λ r. tokens.now ≡ lexeme.Count r.0.now r.1 ∷ r.2.now) }
{
    match next(tokens) {
        Some((Lexeme::Count(term, n), rest)) => Some((term, *n, rest)),
        _ => None,
    }
}
