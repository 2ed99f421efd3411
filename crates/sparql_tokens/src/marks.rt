//! Marks.

ghost use Rattle.std.specs.Prelude.{◌≡◌, length, IfSome, Some, None};
ghost use Rattle.sparql_meaning.specs.Tokens.{head, mark_at, mark_of_one, mark_of_two};
ghost use Rattle.sparql_tokens.specs.Pieces.{IsWithin};

use crate::runs::head;
use sparql_meaning::{Found, Mark, TokenKind};

fn mark_of_two(first: char, second: char) -> Option<Mark>
    ensures { result ≡ mark_of_two first second }
{
    match (first, second) {
        ('!', '=') => Some(Mark::NotEqual),
        ('<', '=') => Some(Mark::LessEqual),
        ('>', '=') => Some(Mark::GreaterEqual),
        ('&', '&') => Some(Mark::And),
        ('|', '|') => Some(Mark::Or),
        ('^', '^') => Some(Mark::TwoCarets),
        _ => None,
    }
}

fn mark_of_one(c: char) -> Option<Mark>
    ensures { result ≡ mark_of_one c }
{
    match c {
        '{' => Some(Mark::OpenBrace),
        '}' => Some(Mark::CloseBrace),
        '(' => Some(Mark::OpenBracket),
        ')' => Some(Mark::CloseBracket),
        '[' => Some(Mark::OpenSquare),
        ']' => Some(Mark::CloseSquare),
        '.' => Some(Mark::Dot),
        ';' => Some(Mark::Semicolon),
        ',' => Some(Mark::Comma),
        '*' => Some(Mark::Star),
        '/' => Some(Mark::Slash),
        '+' => Some(Mark::Plus),
        '-' => Some(Mark::Minus),
        '=' => Some(Mark::Equal),
        '<' => Some(Mark::Less),
        '>' => Some(Mark::Greater),
        '!' => Some(Mark::Not),
        '|' => Some(Mark::Pipe),
        '^' => Some(Mark::Caret),
        '?' => Some(Mark::Question),
        _ => None,
    }
}

/// The longest mark in front.
#[tactic(auto, unfolding(sparql_meaning::specs::Tokens::mark_at))]
pub(crate) fn mark_at(chars: &[char]) -> Option<Found>
    ensures value { result ≡ mark_at chars.now }
    ensures within { IsWithin (length chars.now) result }
{
    let first = head(chars);
    let second = match chars {
        [_, second, ..] => *second,
        _ => '\0',
    };
    if let Some(mark) = mark_of_two(first, second) {
        return Some(Found {
            kind: TokenKind::Mark(mark),
            chars: 2,
        });
    }
    let mark = mark_of_one(first)?;
    Some(Found {
        kind: TokenKind::Mark(mark),
        chars: 1,
    })
}
