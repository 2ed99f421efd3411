//! What stands before the group of a query.

ghost use Rattle.std.specs.Prelude.{IfOk, IfErr, ◌<◌, ◌≤◌, length};
ghost use Rattle.sparql_grammar_meaning.specs.Grammar.{Shown_, Query_, a_list};
ghost use Rattle.sparql_cursor.specs.Outcomes.{Gets, Stops};
ghost use Rattle.sparql_head.specs.HeadSteps.{HeadGot, MaySign};
ghost use Rattle.sparql_grammar_meaning.specs.declared.lexeme.Sign.TheVariants as signs;

use crate::prologue::read_prologue;
use query_meaning::VarId;
use sparql_cursor::{Refusal, after_sign, after_variable};
use sparql_grammar_meaning::{Lexeme, Sign};
use sqlite_items::Items;
use std::alloc::Global;

/// What stands behind `SELECT`; of `*` no list.
#[derive(Debug, Drop)]
pub struct Head {
    pub distinct: bool,
    pub shown: Option<Items<VarId>>,
}

#[tactic(auto, using(crate::specs::HeadSteps::shown_paths))]
fn read_shown(
    alloc: Global,
    tokens: &[Lexeme],
) -> Result<(Option<Items<VarId>>, &[Lexeme]), Refusal>
    ensures reads { IfOk result (λ r. Gets Shown_ tokens.now (a_list r.0) r.1.now) }
    ensures shorter { IfOk result (λ r. length r.1.now < length tokens.now) }
    ensures refuses { IfErr result (λ e. Stops Shown_ tokens.now e) }
{
    if let Some(rest) = after_sign(tokens, Sign::Star) {
        return Ok((None, rest));
    }
    let Some((first, mut rest)) = after_variable(tokens) else {
        return Err(Refusal::Syntax { left: tokens.len() })
    };
    let mut variables = Items::new(alloc);
    variables.push(first)?;
    while let Some((variable, after)) = after_variable(rest) {
        variables.push(variable)?;
        rest = after;
    }
    Ok((Some(variables), rest))
}

// A sign that may be left out: whether it is there, and what is behind it.
#[tactic(auto, using(crate::specs::HeadSteps::may_paths))]
fn may_sign(tokens: &[Lexeme], sign: Sign) -> (bool, &[Lexeme])
    ensures reads { MaySign sign tokens.now result.0 result.1.now }
    ensures shorter { length result.1.now ≤ length tokens.now }
{
    match after_sign(tokens, sign) {
        Some(rest) => (true, rest),
        None => (false, tokens),
    }
}

/// Reads a query up to its group.
#[tactic(auto, using(crate::specs::HeadSteps::head_paths))]
pub fn read_head(alloc: Global, tokens: &[Lexeme]) -> Result<(Head, &[Lexeme]), Refusal>
    ensures reads { IfOk result (λ r. HeadGot tokens.now r.0.distinct r.0.shown r.1.now) }
    ensures refuses { IfErr result (λ e. Stops Query_ tokens.now e) }
{
    let rest = read_prologue(tokens)?;
    let Some(rest) = after_sign(rest, Sign::Select) else {
        return Err(Refusal::Syntax { left: rest.len() })
    };
    let (distinct, rest) = may_sign(rest, Sign::Distinct);
    let (shown, rest) = read_shown(alloc, rest)?;
    let (_, rest) = may_sign(rest, Sign::Where);
    Ok((Head { distinct, shown }, rest))
}
