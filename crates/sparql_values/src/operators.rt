//! What may stand behind the first value of a comparison.

ghost use Rattle.std.specs.Prelude.{IfOk, IfErr, IsTrue, IsFalse, ◌∷◌, ◌<◌, length};
ghost use Rattle.sparql_grammar_meaning.specs.Grammar.{Operator_};
ghost use Rattle.sparql_grammar_meaning.specs.Table.{begins};
ghost use Rattle.sparql_grammar_meaning.specs.declared.lexeme.Lexeme.TheVariants as lexeme;
ghost use Rattle.sparql_grammar_meaning.specs.declared.lexeme.Sign.TheVariants as signs;
ghost use Rattle.sparql_cursor.specs.Outcomes.{Stops, SomeOf, NoneOf};
ghost use Rattle.sparql_values.specs.OperatorSteps.{OperatorGot};

use crate::lists::read_values;
use crate::next::after_compare;
use crate::values::read_value;
use query_meaning::{TruthExpr, ValueExpr};
use sparql_cursor::{Refusal, after_sign, next};
use sparql_grammar_meaning::{Lexeme, Sign};
use sqlite_items::Boxed;
use std::alloc::Global;

/// Whether a comparison, `IN` or `NOT` is in front.
pub fn operator_ahead(tokens: &[Lexeme]) -> bool
    ensures yes { IsTrue result → SomeOf (begins Operator_) tokens.now }
    ensures no { IsFalse result → NoneOf (begins Operator_) tokens.now }
{
    match next(tokens) {
        Some((Lexeme::Compare(_), _)) => true,
        Some((Lexeme::Sign(Sign::In), _)) => true,
        Some((Lexeme::Sign(Sign::Not), _)) => true,
        _ => false,
    }
}

// What stands behind `NOT`.
#[tactic(auto, using(crate::specs::OperatorSteps::not_paths))]
fn read_not_in(
    alloc: Global,
    left: ValueExpr,
    tokens: &[Lexeme],
) -> Result<(TruthExpr, &[Lexeme]), Refusal>
    ensures reads { IfOk result (λ r. OperatorGot left (lexeme.Sign signs.Not ∷ tokens.now) r.0 r.1.now) }
    ensures shorter { IfOk result (λ r. length r.1.now < length tokens.now) }
    ensures refuses { IfErr result (λ e. Stops Operator_ (lexeme.Sign signs.Not ∷ tokens.now) e) }
{
    let Some(rest) = after_sign(tokens, Sign::In) else {
        return Err(Refusal::Syntax { left: tokens.len() })
    };
    let (values, rest) = read_values(alloc, rest)?;
    let part = Boxed::new(alloc, TruthExpr::OneOf(left, values))?;
    Ok((TruthExpr::Not(part), rest))
}

/// Reads an operator and what it compares the first value with.
#[tactic(auto, using(crate::specs::OperatorSteps::operator_paths))]
pub fn read_operator(
    alloc: Global,
    left: ValueExpr,
    tokens: &[Lexeme],
) -> Result<(TruthExpr, &[Lexeme]), Refusal>
    ensures reads { IfOk result (λ r. OperatorGot left tokens.now r.0 r.1.now) }
    ensures shorter { IfOk result (λ r. length r.1.now < length tokens.now) }
    ensures refuses { IfErr result (λ e. Stops Operator_ tokens.now e) }
{
    if let Some((op, rest)) = after_compare(tokens) {
        let (right, rest) = read_value(alloc, rest)?;
        return Ok((TruthExpr::Compare(op, left, right), rest));
    }
    if let Some(rest) = after_sign(tokens, Sign::In) {
        let (values, rest) = read_values(alloc, rest)?;
        return Ok((TruthExpr::OneOf(left, values), rest));
    }
    match after_sign(tokens, Sign::Not) {
        Some(rest) => read_not_in(alloc, left, rest),
        None => Err(Refusal::Syntax { left: tokens.len() }),
    }
}
