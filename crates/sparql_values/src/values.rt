//! Values.

ghost use Rattle.std.specs.Prelude.{IfOk, IfErr, ◌≡◌, ◌<◌, length};
ghost use Rattle.rdf_meaning.specs.Terms.{iri};
ghost use Rattle.sparql_grammar_meaning.specs.Grammar.{Value_, Fun_, a_value, applied, function, variable, sign};
ghost use Rattle.grammar_meaning.specs.Grammar.{Leaf};
ghost use Rattle.sparql_grammar_meaning.specs.declared.lexeme.Lexeme.TheVariants as lexeme;
ghost use Rattle.sparql_grammar_meaning.specs.declared.lexeme.Sign.TheVariants as signs;
ghost use Rattle.sparql_cursor.specs.Outcomes.{Gets, Stops, IsNot};
ghost use Rattle.sparql_values.specs.ValueSteps.{BracketGot, BracketStops};

use crate::next::{after_function, bracket_ahead, function_ahead};
use query_meaning::ValueExpr;
use rdf_meaning::{Term, TermKind, Text, text_of};
use sparql_cursor::{Refusal, after_sign, after_variable, iri_ahead};
use sparql_grammar_meaning::{Function, Lexeme, Sign};
use sparql_terms::{read_iri, read_literal};
use sqlite_items::Boxed;
use std::alloc::{AllocError, Global};

fn iri_term(alloc: Global, text: Text) -> Result<Term, AllocError>
    ensures { IfOk result (λ t. t ≡ iri text) }
{
    Ok(Term {
        kind: TermKind::Iri,
        text,
        aux: text_of(alloc, "")?,
    })
}

fn applied(alloc: Global, function: Function, value: ValueExpr) -> Result<ValueExpr, AllocError>
    ensures { IfOk result (λ x. x ≡ applied (Leaf (lexeme.Function function)) value) }
{
    let value = Boxed::new(alloc, value)?;
    match function {
        Function::Str => Ok(ValueExpr::Str(value)),
        Function::Lang => Ok(ValueExpr::Lang(value)),
        Function::Datatype => Ok(ValueExpr::Datatype(value)),
    }
}

/// Reads a value in brackets.
#[cycle(values)]
#[tactic(auto, using(crate::specs::ValueSteps::bracket_paths))]
pub(crate) fn read_bracketed(
    alloc: Global,
    tokens: &[Lexeme],
) -> Result<(ValueExpr, &[Lexeme]), Refusal>
    ensures reads { IfOk result (λ r. BracketGot tokens.now r.0 r.1.now) }
    ensures shorter { IfOk result (λ r. length r.1.now < length tokens.now) }
    ensures refuses { IfErr result (λ e. BracketStops tokens.now e) }
{
    let Some(inner) = after_sign(tokens, Sign::OpenBracket) else {
        return Err(Refusal::Syntax { left: tokens.len() })
    };
    let (value, rest) = read_value(alloc, inner)?;
    match after_sign(rest, Sign::CloseBracket) {
        Some(rest) => Ok((value, rest)),
        None => Err(Refusal::Syntax { left: rest.len() }),
    }
}

/// Reads `str`, `lang` or `datatype` of a value.
#[cycle(values)]
#[tactic(auto, using(crate::specs::ValueSteps::function_paths))]
pub fn read_function(alloc: Global, tokens: &[Lexeme]) -> Result<(ValueExpr, &[Lexeme]), Refusal>
    ensures reads { IfOk result (λ r. Gets Fun_ tokens.now (a_value r.0) r.1.now) }
    ensures shorter { IfOk result (λ r. length r.1.now < length tokens.now) }
    ensures refuses { IfErr result (λ e. Stops Fun_ tokens.now e) }
{
    let Some((function, rest)) = after_function(tokens) else {
        return Err(Refusal::Syntax { left: tokens.len() })
    };
    let (value, rest) = read_bracketed(alloc, rest)?;
    Ok((applied(alloc, function, value)?, rest))
}

#[tactic(auto, using(crate::specs::ValueSteps::constant_paths))]
fn read_constant(alloc: Global, tokens: &[Lexeme]) -> Result<(ValueExpr, &[Lexeme]), Refusal>
    requires variable { IsNot variable tokens.now }
    requires function { IsNot function tokens.now }
    requires bracket { IsNot (sign signs.OpenBracket) tokens.now }
    ensures reads { IfOk result (λ r. Gets Value_ tokens.now (a_value r.0) r.1.now) }
    ensures shorter { IfOk result (λ r. length r.1.now < length tokens.now) }
    ensures refuses { IfErr result (λ e. Stops Value_ tokens.now e) }
{
    if iri_ahead(tokens) {
        let (iri, rest) = read_iri(alloc, tokens)?;
        return Ok((ValueExpr::Const(iri_term(alloc, iri)?), rest));
    }
    let (literal, rest) = read_literal(alloc, tokens)?;
    Ok((ValueExpr::Const(literal), rest))
}

/// Reads a value that no bracket opens.
#[cycle(values)]
#[tactic(auto, using(crate::specs::ValueSteps::plain_paths))]
pub fn read_plain_value(alloc: Global, tokens: &[Lexeme]) -> Result<(ValueExpr, &[Lexeme]), Refusal>
    requires { IsNot (sign signs.OpenBracket) tokens.now }
    ensures reads { IfOk result (λ r. Gets Value_ tokens.now (a_value r.0) r.1.now) }
    ensures shorter { IfOk result (λ r. length r.1.now < length tokens.now) }
    ensures refuses { IfErr result (λ e. Stops Value_ tokens.now e) }
{
    if let Some((v, rest)) = after_variable(tokens) {
        return Ok((ValueExpr::Var(v), rest));
    }
    if function_ahead(tokens) {
        let (value, rest) = read_function(alloc, tokens)?;
        return Ok((value, rest));
    }
    read_constant(alloc, tokens)
}

/// Reads a value.
#[cycle(values)]
#[tactic(auto, using(crate::specs::ValueSteps::value_paths))]
pub fn read_value(alloc: Global, tokens: &[Lexeme]) -> Result<(ValueExpr, &[Lexeme]), Refusal>
    ensures reads { IfOk result (λ r. Gets Value_ tokens.now (a_value r.0) r.1.now) }
    ensures shorter { IfOk result (λ r. length r.1.now < length tokens.now) }
    ensures refuses { IfErr result (λ e. Stops Value_ tokens.now e) }
{
    if bracket_ahead(tokens) {
        let (value, rest) = read_bracketed(alloc, tokens)?;
        return Ok((value, rest));
    }
    read_plain_value(alloc, tokens)
}
