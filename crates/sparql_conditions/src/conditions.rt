//! Truth expressions, from items to `||`.

ghost use Rattle.std.specs.Prelude.{IfOk, IfErr, ◌<◌, length};
ghost use Rattle.sparql_grammar_meaning.specs.Grammar.{Truth_, And_, Rel_, sign};
ghost use Rattle.sparql_grammar_meaning.specs.declared.lexeme.Sign.TheVariants as signs;
ghost use Rattle.sparql_cursor.specs.Outcomes.{IsNot};
ghost use Rattle.sparql_conditions.specs.Operands.{One, Item, StopsOne, StopsItem};

use crate::operand::{Operand, into_truth};
use query_meaning::TruthExpr;
use sparql_cursor::{Refusal, after_sign};
use sparql_grammar_meaning::{Lexeme, Sign};
use sparql_values::{operator_ahead, read_operator, read_plain_value, read_test, test_ahead};
use sqlite_items::{Boxed, Items};
use std::alloc::Global;

// What stands before an operator or behind `!`.
#[cycle(conditions)]
#[tactic(auto, using(crate::specs::ItemSteps::item_paths))]
fn read_item(alloc: Global, tokens: &[Lexeme]) -> Result<(Operand, &[Lexeme]), Refusal>
    ensures reads { IfOk result (λ r. Item tokens.now r.0 r.1.now) }
    ensures shorter { IfOk result (λ r. length r.1.now < length tokens.now) }
    ensures refuses { IfErr result (λ e. StopsItem tokens.now e) }
{
    if let Some(inner) = after_sign(tokens, Sign::OpenBracket) {
        let (operand, rest) = read_truth(alloc, inner)?;
        return match after_sign(rest, Sign::CloseBracket) {
            Some(rest) => Ok((operand, rest)),
            None => Err(Refusal::Syntax { left: rest.len() }),
        };
    }
    if test_ahead(tokens) {
        let (test, rest) = read_test(alloc, tokens)?;
        return Ok((Operand::Truth(test), rest));
    }
    let (value, rest) = read_plain_value(alloc, tokens)?;
    Ok((Operand::Value(value), rest))
}

// An item without `!`, and maybe what it is compared with.
#[cycle(conditions)]
#[tactic(auto, using(crate::specs::RelSteps::rel_paths))]
fn read_compared(alloc: Global, tokens: &[Lexeme]) -> Result<(Operand, &[Lexeme]), Refusal>
    requires { IsNot (sign signs.Bang) tokens.now }
    ensures reads { IfOk result (λ r. One Rel_ tokens.now r.0 r.1.now) }
    ensures shorter { IfOk result (λ r. length r.1.now < length tokens.now) }
    ensures refuses { IfErr result (λ e. StopsOne Rel_ tokens.now e) }
{
    let (item, rest) = read_item(alloc, tokens)?;
    match item {
        Operand::Truth(truth) => Ok((Operand::Truth(truth), rest)),
        Operand::Value(left) => {
            if operator_ahead(rest) {
                let (truth, rest) = read_operator(alloc, left, rest)?;
                Ok((Operand::Truth(truth), rest))
            } else {
                Ok((Operand::Value(left), rest))
            }
        }
    }
}

#[cycle(conditions)]
#[tactic(auto, using(crate::specs::RelSteps::bang_paths))]
fn read_rel(alloc: Global, tokens: &[Lexeme]) -> Result<(Operand, &[Lexeme]), Refusal>
    ensures reads { IfOk result (λ r. One Rel_ tokens.now r.0 r.1.now) }
    ensures shorter { IfOk result (λ r. length r.1.now < length tokens.now) }
    ensures refuses { IfErr result (λ e. StopsOne Rel_ tokens.now e) }
{
    match after_sign(tokens, Sign::Bang) {
        Some(rest) => {
            let (operand, rest) = read_item(alloc, rest)?;
            let truth = TruthExpr::Not(Boxed::new(alloc, into_truth(operand))?);
            Ok((Operand::Truth(truth), rest))
        }
        None => {
            let (operand, rest) = read_compared(alloc, tokens)?;
            Ok((operand, rest))
        }
    }
}

// Members with `&&` between them.
#[cycle(conditions)]
#[tactic(auto, using(crate::specs::AndSteps::chain_paths))]
fn read_and(alloc: Global, tokens: &[Lexeme]) -> Result<(Operand, &[Lexeme]), Refusal>
    ensures reads { IfOk result (λ r. One And_ tokens.now r.0 r.1.now) }
    ensures shorter { IfOk result (λ r. length r.1.now < length tokens.now) }
    ensures refuses { IfErr result (λ e. StopsOne And_ tokens.now e) }
{
    let (first, rest) = read_rel(alloc, tokens)?;
    let Some(after) = after_sign(rest, Sign::And) else {
        return Ok((first, rest))
    };
    let (second, mut rest) = read_rel(alloc, after)?;
    let mut members = Items::new(alloc);
    members.push(into_truth(first))?;
    members.push(into_truth(second))?;
    while let Some(after) = after_sign(rest, Sign::And) {
        let (member, after) = read_rel(alloc, after)?;
        members.push(into_truth(member))?;
        rest = after;
    }
    Ok((Operand::Truth(TruthExpr::All(members)), rest))
}

/// Reads members with `||` between them.
#[cycle(conditions)]
#[tactic(auto, using(crate::specs::OrSteps::chain_paths))]
pub(crate) fn read_truth(alloc: Global, tokens: &[Lexeme]) -> Result<(Operand, &[Lexeme]), Refusal>
    ensures reads { IfOk result (λ r. One Truth_ tokens.now r.0 r.1.now) }
    ensures shorter { IfOk result (λ r. length r.1.now < length tokens.now) }
    ensures refuses { IfErr result (λ e. StopsOne Truth_ tokens.now e) }
{
    let (first, rest) = read_and(alloc, tokens)?;
    let Some(after) = after_sign(rest, Sign::Or) else {
        return Ok((first, rest))
    };
    let (second, mut rest) = read_and(alloc, after)?;
    let mut members = Items::new(alloc);
    members.push(into_truth(first))?;
    members.push(into_truth(second))?;
    while let Some(after) = after_sign(rest, Sign::Or) {
        let (member, after) = read_and(alloc, after)?;
        members.push(into_truth(member))?;
        rest = after;
    }
    Ok((Operand::Truth(TruthExpr::Any(members)), rest))
}
