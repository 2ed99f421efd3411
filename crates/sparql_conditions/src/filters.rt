//! Conditions of filters.

ghost use Rattle.std.specs.Prelude.{IfOk, IfErr, ◌<◌, length};
ghost use Rattle.sparql_grammar_meaning.specs.Grammar.{Cond_, a_truth};
ghost use Rattle.sparql_cursor.specs.Outcomes.{Gets, Stops};

use crate::conditions::read_truth;
use crate::operand::into_truth;
use query_meaning::TruthExpr;
use sparql_cursor::{Refusal, after_sign};
use sparql_grammar_meaning::{Lexeme, Sign};
use sparql_values::{read_function, read_test, test_ahead};
use std::alloc::Global;

/// Reads what stands behind `FILTER`: an expression in brackets, a test, or a function's value.
#[tactic(auto, using(crate::specs::FilterSteps::filter_paths))]
pub fn read_condition(alloc: Global, tokens: &[Lexeme]) -> Result<(TruthExpr, &[Lexeme]), Refusal>
    ensures reads { IfOk result (λ r. Gets Cond_ tokens.now (a_truth r.0) r.1.now) }
    ensures shorter { IfOk result (λ r. length r.1.now < length tokens.now) }
    ensures refuses { IfErr result (λ e. Stops Cond_ tokens.now e) }
{
    if let Some(inner) = after_sign(tokens, Sign::OpenBracket) {
        let (operand, rest) = read_truth(alloc, inner)?;
        return match after_sign(rest, Sign::CloseBracket) {
            Some(rest) => Ok((into_truth(operand), rest)),
            None => Err(Refusal::Syntax { left: rest.len() }),
        };
    }
    if test_ahead(tokens) {
        let (test, rest) = read_test(alloc, tokens)?;
        return Ok((test, rest));
    }
    let (value, rest) = read_function(alloc, tokens)?;
    Ok((TruthExpr::Value(value), rest))
}
