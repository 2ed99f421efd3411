//! Expressions without parts.

ghost use Rattle.std.specs.Prelude.{◌≡◌, ◌<◌, [], None, Some, IfOk, IfErr, MatchOption, length};
ghost use Rattle.sql_meaning.specs.Grammar.{Simple, NullOf, an_expr};
ghost use Rattle.sql_text_cursor.specs.Outcomes.{Fault, Gets, Stops};
ghost use Rattle.sql_text_expressions.specs.Leaves as leaves;

use sql_meaning::{Mark, Placed, SqlExpr, Token};
use sql_text_cursor::{Refusal, expect, next, read_name};
use std::alloc::{AllocError, Global};
use table_meaning::Kind;

fn truth_of(mark: Mark) -> Option<bool>
    ensures { result ≡ leaves.truth_of mark }
{
    match mark {
        Mark::True => Some(true),
        Mark::False => Some(false),
        _ => None,
    }
}

// The constant that the token writes.
fn constant_in(alloc: Global, token: &Token) -> Result<Option<SqlExpr>, AllocError>
    ensures { IfOk result (λ constant. constant ≡ leaves.constant_in token.now) }
{
    match token {
        Token::Int(number) => Ok(Some(SqlExpr::Int(*number))),
        Token::Text(text) => Ok(Some(SqlExpr::Text(text.copy(alloc)?))),
        Token::Mark(mark) => match truth_of(*mark) {
            Some(truth) => Ok(Some(SqlExpr::Truth(truth))),
            None => Ok(None),
        },
        Token::Name(_) => Ok(None),
        Token::Broken => Ok(None),
    }
}

// A number, a text, TRUE, FALSE or a source's column.
#[tactic(auto, using(crate::specs::Leaves::simple_steps))]
pub(crate) fn read_simple(alloc: Global, tokens: &[Placed]) -> Result<(SqlExpr, &[Placed]), Refusal>
    ensures reads { IfOk result (λ r. Gets Simple tokens.now (an_expr r.0) r.1.now) }
    ensures shorter { IfOk result (λ r. length r.1.now < length tokens.now) }
    ensures refuses { IfErr result (λ e. Stops Simple tokens.now e) }
{
    let Some((token, rest)) = next(tokens) else {
        return Err(Refusal::Syntax { left: tokens.len() })
    };
    if let Some(constant) = constant_in(alloc, token)? {
        return Ok((constant, rest));
    }
    let (alias, rest) = read_name(alloc, tokens)?;
    let rest = expect(Mark::Dot, rest)?;
    let (column, rest) = read_name(alloc, rest)?;
    Ok((SqlExpr::Name(alias, column), rest))
}

fn kind_of(mark: Mark) -> Option<Kind>
    ensures { result ≡ leaves.kind_of mark }
{
    match mark {
        Mark::Int => Some(Kind::Int),
        Mark::Text => Some(Kind::Text),
        Mark::Truth => Some(Kind::Truth),
        _ => None,
    }
}

fn kind_in(token: &Token) -> Option<Kind>
    ensures { result ≡ leaves.kind_in token.now }
{
    match token {
        Token::Mark(mark) => kind_of(*mark),
        _ => None,
    }
}

#[tactic(auto, using(crate::specs::Leaves::kind_steps))]
fn read_kind(tokens: &[Placed]) -> Result<(Kind, &[Placed]), Refusal>
    ensures reads { IfOk result (λ r. leaves.KindAt tokens.now r.0 r.1.now) }
    ensures shorter { IfOk result (λ r. length r.1.now < length tokens.now) }
    ensures refuses { IfErr result (λ e. Fault [] leaves.kind_form tokens.now e) }
{
    let Some((token, rest)) = next(tokens) else {
        return Err(Refusal::Syntax { left: tokens.len() })
    };
    match kind_in(token) {
        Some(kind) => Ok((kind, rest)),
        None => Err(Refusal::Syntax { left: tokens.len() }),
    }
}

// What stands in front of the kind of a null.
#[tactic(auto, using(crate::specs::Leaves::cast_steps))]
fn after_cast(tokens: &[Placed]) -> Result<&[Placed], Refusal>
    ensures reads { IfOk result (λ rest. leaves.CastAt tokens.now rest.now) }
    ensures shorter { IfOk result (λ rest. length rest.now < length tokens.now) }
    ensures refuses { IfErr result (λ e. Stops NullOf tokens.now e) }
{
    let rest = expect(Mark::Cast, tokens)?;
    let rest = expect(Mark::Open, rest)?;
    let rest = expect(Mark::Null, rest)?;
    expect(Mark::As, rest)
}

// A null of a kind.
#[tactic(auto, using(crate::specs::Leaves::null_steps))]
pub(crate) fn read_null(tokens: &[Placed]) -> Result<(SqlExpr, &[Placed]), Refusal>
    ensures reads { IfOk result (λ r. Gets NullOf tokens.now (an_expr r.0) r.1.now) }
    ensures shorter { IfOk result (λ r. length r.1.now < length tokens.now) }
    ensures refuses { IfErr result (λ e. Stops NullOf tokens.now e) }
{
    let rest = after_cast(tokens)?;
    let (kind, rest) = read_kind(rest)?;
    let rest = expect(Mark::Close, rest)?;
    Ok((SqlExpr::Null(kind), rest))
}
