//! `bound`, `sameTerm`, and the tests of a term's kind.

ghost use Rattle.std.specs.Prelude.{IfOk, IfErr, ◌∷◌, ◌<◌, length};
ghost use Rattle.sparql_grammar_meaning.specs.Grammar.{Test_, a_truth};
ghost use Rattle.sparql_grammar_meaning.specs.declared.lexeme.Lexeme.TheVariants as lexeme;
ghost use Rattle.sparql_grammar_meaning.specs.declared.lexeme.Sign.TheVariants as signs;
ghost use Rattle.sparql_cursor.specs.Outcomes.{Gets, Stops};

use crate::next::after_test;
use crate::values::{read_bracketed, read_value};
use query_meaning::TruthExpr;
use sparql_cursor::{Refusal, after_sign, after_variable};
use sparql_grammar_meaning::{Lexeme, Sign};
use std::alloc::Global;

// What stands behind `bound`.
#[tactic(auto, using(crate::specs::TestSteps::bound_paths))]
fn read_bound(tokens: &[Lexeme]) -> Result<(TruthExpr, &[Lexeme]), Refusal>
    ensures reads { IfOk result (λ r. Gets Test_ (lexeme.Sign signs.Bound ∷ tokens.now) (a_truth r.0) r.1.now) }
    ensures shorter { IfOk result (λ r. length r.1.now < length tokens.now) }
    ensures refuses { IfErr result (λ e. Stops Test_ (lexeme.Sign signs.Bound ∷ tokens.now) e) }
{
    let Some(inner) = after_sign(tokens, Sign::OpenBracket) else {
        return Err(Refusal::Syntax { left: tokens.len() })
    };
    let Some((v, rest)) = after_variable(inner) else {
        return Err(Refusal::Syntax { left: inner.len() })
    };
    match after_sign(rest, Sign::CloseBracket) {
        Some(rest) => Ok((TruthExpr::Bound(v), rest)),
        None => Err(Refusal::Syntax { left: rest.len() }),
    }
}

// What stands behind `sameTerm`.
#[tactic(auto, using(crate::specs::TestSteps::same_paths))]
fn read_same_term(alloc: Global, tokens: &[Lexeme]) -> Result<(TruthExpr, &[Lexeme]), Refusal>
    ensures reads { IfOk result (λ r. Gets Test_ (lexeme.Sign signs.SameTerm ∷ tokens.now) (a_truth r.0) r.1.now) }
    ensures shorter { IfOk result (λ r. length r.1.now < length tokens.now) }
    ensures refuses { IfErr result (λ e. Stops Test_ (lexeme.Sign signs.SameTerm ∷ tokens.now) e) }
{
    let Some(inner) = after_sign(tokens, Sign::OpenBracket) else {
        return Err(Refusal::Syntax { left: tokens.len() })
    };
    let (left, rest) = read_value(alloc, inner)?;
    let Some(rest) = after_sign(rest, Sign::Comma) else {
        return Err(Refusal::Syntax { left: rest.len() })
    };
    let (right, rest) = read_value(alloc, rest)?;
    match after_sign(rest, Sign::CloseBracket) {
        Some(rest) => Ok((TruthExpr::SameTerm(left, right), rest)),
        None => Err(Refusal::Syntax { left: rest.len() }),
    }
}

/// Reads a test.
#[tactic(auto, using(crate::specs::TestSteps::test_paths))]
pub fn read_test(alloc: Global, tokens: &[Lexeme]) -> Result<(TruthExpr, &[Lexeme]), Refusal>
    ensures reads { IfOk result (λ r. Gets Test_ tokens.now (a_truth r.0) r.1.now) }
    ensures shorter { IfOk result (λ r. length r.1.now < length tokens.now) }
    ensures refuses { IfErr result (λ e. Stops Test_ tokens.now e) }
{
    if let Some(rest) = after_sign(tokens, Sign::Bound) {
        return read_bound(rest);
    }
    if let Some(rest) = after_sign(tokens, Sign::SameTerm) {
        return read_same_term(alloc, rest);
    }
    let Some((test, rest)) = after_test(tokens) else {
        return Err(Refusal::Syntax { left: tokens.len() })
    };
    let (value, rest) = read_bracketed(alloc, rest)?;
    Ok((TruthExpr::Is(test, value), rest))
}
