//! Conditions, keys and counts.

ghost use Rattle.std.specs.Prelude.{◌≡◌, ◌≤◌, ◌<◌, IfOk, IfErr, length};
ghost use Rattle.sql_meaning.specs.Grammar.{Condition, OneKey, KeyList, an_expr, a_key, key_list};
ghost use Rattle.sql_text_cursor.specs.Outcomes.{Gets, Stops};
ghost use Rattle.sql_text_clauses.specs.Keys as counts;

use crate::rows::may_mark;
use sql_meaning::{Mark, Placed, SqlExpr, SqlKey, Token};
use sql_text_cursor::{Refusal, after_mark, expect, next};
use sql_text_expressions::read_expr;
use sqlite_items::Items;
use std::alloc::Global;

/// A count is less than this.
const COUNT_END: i128 = 1_000_000_000_000_000_000;

/// Reads WHERE with its condition.
#[tactic(auto, using(crate::specs::Keys::condition_steps))]
pub fn read_condition(alloc: Global, tokens: &[Placed]) -> Result<(SqlExpr, &[Placed]), Refusal>
    ensures reads { IfOk result (λ r. Gets Condition tokens.now (an_expr r.0) r.1.now) }
    ensures shorter { IfOk result (λ r. length r.1.now < length tokens.now) }
    ensures refuses { IfErr result (λ e. Stops Condition tokens.now e) }
{
    let rest = expect(Mark::Where, tokens)?;
    let (condition, rest) = read_expr(alloc, 0, rest)?;
    Ok((condition, rest))
}

#[tactic(auto, using(crate::specs::Keys::key_steps))]
fn read_key(alloc: Global, tokens: &[Placed]) -> Result<(SqlKey, &[Placed]), Refusal>
    ensures reads { IfOk result (λ r. Gets OneKey tokens.now (a_key r.0) r.1.now) }
    ensures shorter { IfOk result (λ r. length r.1.now < length tokens.now) }
    ensures refuses { IfErr result (λ e. Stops OneKey tokens.now e) }
{
    let (expr, rest) = read_expr(alloc, 0, tokens)?;
    let (down, rest) = may_mark(Mark::Desc, rest);
    Ok((SqlKey { expr, down }, rest))
}

/// Reads ORDER BY with its keys.
#[tactic(auto, using(crate::specs::Keys::keys_steps))]
pub fn read_keys(alloc: Global, tokens: &[Placed]) -> Result<(Items<SqlKey>, &[Placed]), Refusal>
    ensures reads { IfOk result (λ r. Gets KeyList tokens.now (key_list r.0) r.1.now) }
    ensures shorter { IfOk result (λ r. length r.1.now < length tokens.now) }
    ensures refuses { IfErr result (λ e. Stops KeyList tokens.now e) }
{
    let rest = expect(Mark::Order, tokens)?;
    let rest = expect(Mark::By, rest)?;
    let (key, mut rest) = read_key(alloc, rest)?;
    let mut keys = Items::new(alloc);
    keys.push(key)?;
    while let Some(after) = after_mark(Mark::Comma, rest) {
        let (key, after) = read_key(alloc, after)?;
        keys.push(key)?;
        rest = after;
    }
    Ok((keys, rest))
}

// The count that the token writes.
fn count_of(token: &Token) -> Option<u64>
    ensures { result ≡ counts.count_of token.now }
{
    match token {
        Token::Int(number) => {
            if 0 <= *number && *number < COUNT_END {
                Some(*number as u64)
            } else {
                None
            }
        }
        _ => None,
    }
}

/// Reads LIMIT or OFFSET with its count, where the word is in front.
#[tactic(auto, using(crate::specs::Keys::count_steps))]
pub fn may_count(mark: Mark, tokens: &[Placed]) -> Result<(Option<u64>, &[Placed]), Refusal>
    ensures reads { IfOk result (λ r. counts.CountMay mark tokens.now r.0 r.1.now) }
    ensures within { IfOk result (λ r. length r.1.now ≤ length tokens.now) }
    ensures refuses { IfErr result (λ e. counts.CountStops mark tokens.now e) }
{
    let Some(after) = after_mark(mark, tokens) else {
        return Ok((None, tokens))
    };
    let Some((token, rest)) = next(after) else {
        return Err(Refusal::Syntax { left: after.len() })
    };
    match count_of(token) {
        Some(count) => Ok((Some(count), rest)),
        None => Err(Refusal::Syntax { left: after.len() }),
    }
}
