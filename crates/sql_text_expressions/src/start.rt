//! What the first token of an expression tells of it.

ghost use Rattle.std.specs.Prelude.{◌≡◌, None, Some, MatchOption};
ghost use Rattle.sql_text_cursor.specs.Table.{NoneOf, SomeOf, expr_kinds};
ghost use Rattle.sql_text_expressions.specs.Starts as starts;

use sql_meaning::{Mark, Placed, Token};
use sql_text_cursor::next;

/// The forms of expressions that their first tokens tell apart.
#[derive(Clone, Copy, Debug, PartialEq, Eq)]
pub enum Start {
    Leaf,
    Null,
    Brackets,
    Case,
    First,
}

fn mark_start(mark: Mark) -> Option<Start>
    ensures { result ≡ starts.mark_start mark }
{
    match mark {
        Mark::True => Some(Start::Leaf),
        Mark::False => Some(Start::Leaf),
        Mark::Cast => Some(Start::Null),
        Mark::Open => Some(Start::Brackets),
        Mark::Case => Some(Start::Case),
        Mark::Coalesce => Some(Start::First),
        _ => None,
    }
}

fn token_start(token: &Token) -> Option<Start>
    ensures { result ≡ starts.token_start token.now }
{
    match token {
        Token::Mark(mark) => mark_start(*mark),
        Token::Name(_) => Some(Start::Leaf),
        Token::Int(_) => Some(Start::Leaf),
        Token::Text(_) => Some(Start::Leaf),
        Token::Broken => None,
    }
}

#[tactic(auto, using(crate::specs::Starts::start_steps))]
pub(crate) fn start_of(tokens: &[Placed]) -> Option<Start>
    ensures { MatchOption result (NoneOf expr_kinds tokens.now) (λ start. SomeOf (starts.start_kinds start) tokens.now) }
{
    let (first, _) = next(tokens)?;
    token_start(first)
}
