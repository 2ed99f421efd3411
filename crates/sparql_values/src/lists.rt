//! Lists of values in brackets.

ghost use Rattle.std.specs.Prelude.{IfOk, IfErr, ◌<◌, length};
ghost use Rattle.sparql_grammar_meaning.specs.Grammar.{Values_, values};
ghost use Rattle.sparql_cursor.specs.Outcomes.{Gets, Stops};
ghost use Rattle.sparql_values.specs.ListSteps.{MembersGot, MembersStops};

use crate::next::value_ahead;
use crate::values::read_value;
use query_meaning::ValueExpr;
use sparql_cursor::{Refusal, after_sign};
use sparql_grammar_meaning::{Lexeme, Sign};
use sqlite_items::Items;
use std::alloc::Global;

// Values with commas between them.
#[tactic(auto, using(crate::specs::ListSteps::members_paths))]
fn read_members(alloc: Global, tokens: &[Lexeme]) -> Result<(Items<ValueExpr>, &[Lexeme]), Refusal>
    ensures reads { IfOk result (λ r. MembersGot tokens.now r.0 r.1.now) }
    ensures shorter { IfOk result (λ r. length r.1.now < length tokens.now) }
    ensures refuses { IfErr result (λ e. MembersStops tokens.now e) }
{
    let (first, mut rest) = read_value(alloc, tokens)?;
    let mut values = Items::new(alloc);
    values.push(first)?;
    while let Some(after) = after_sign(rest, Sign::Comma) {
        let (value, after) = read_value(alloc, after)?;
        values.push(value)?;
        rest = after;
    }
    Ok((values, rest))
}

/// Reads a list of values, which may be empty, in its brackets.
#[tactic(auto, using(crate::specs::ListSteps::list_paths))]
pub(crate) fn read_values(
    alloc: Global,
    tokens: &[Lexeme],
) -> Result<(Items<ValueExpr>, &[Lexeme]), Refusal>
    ensures reads { IfOk result (λ r. Gets Values_ tokens.now (values r.0) r.1.now) }
    ensures shorter { IfOk result (λ r. length r.1.now < length tokens.now) }
    ensures refuses { IfErr result (λ e. Stops Values_ tokens.now e) }
{
    let Some(inner) = after_sign(tokens, Sign::OpenBracket) else {
        return Err(Refusal::Syntax { left: tokens.len() })
    };
    if value_ahead(inner) {
        let (values, rest) = read_members(alloc, inner)?;
        return match after_sign(rest, Sign::CloseBracket) {
            Some(rest) => Ok((values, rest)),
            None => Err(Refusal::Syntax { left: rest.len() }),
        };
    }
    match after_sign(inner, Sign::CloseBracket) {
        Some(rest) => Ok((Items::new(alloc), rest)),
        None => Err(Refusal::Syntax { left: inner.len() }),
    }
}
