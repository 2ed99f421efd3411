//! The next token.

ghost use Rattle.std.specs.Prelude.{MatchOption, ◌∷◌, [], ◌≡◌};
ghost use Rattle.sparql_grammar_meaning.specs.Grammar.{sign, variable};
ghost use Rattle.sparql_grammar_meaning.specs.declared.lexeme.Lexeme.TheVariants as lexeme;
ghost use Rattle.sparql_cursor.specs.Outcomes.{IsNot};

use query_meaning::VarId;
use sparql_grammar_meaning::{Lexeme, Sign};

/// The first token, and those behind it.
pub fn next(tokens: &[Lexeme]) -> Option<(&Lexeme, &[Lexeme])>
    ensures { MatchOption result (tokens.now ≡ []) (λ r. tokens.now ≡ r.0.now ∷ r.1.now) }
{
    match tokens {
        [] => None,
        [first, rest @ ..] => Some((first, rest)),
    }
}

/// The tokens behind this sign in front.
#[tactic(auto, using(crate::specs::Outcomes::sign_paths))]
pub fn after_sign(tokens: &[Lexeme], wanted: Sign) -> Option<&[Lexeme]>
    ensures { MatchOption result (IsNot (sign wanted) tokens.now) (λ r. tokens.now ≡ lexeme.Sign wanted ∷ r.now) }
{
    match next(tokens) {
        Some((Lexeme::Sign(found), rest)) => { if *found == wanted { Some(rest) } else { None } }
        _ => None,
    }
}

/// A variable in front, and the tokens behind it.
pub fn after_variable(tokens: &[Lexeme]) -> Option<(VarId, &[Lexeme])>
    ensures { MatchOption result (IsNot variable tokens.now) (λ r. tokens.now ≡ lexeme.Variable r.0 ∷ r.1.now) }
{
    match next(tokens) {
        Some((Lexeme::Variable(v), rest)) => Some((*v, rest)),
        _ => None,
    }
}
