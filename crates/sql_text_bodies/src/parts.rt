//! What stands behind SELECT, and what ends it.

ghost use Rattle.std.specs.Prelude.{◌≤◌, ◌<◌, IfOk, IfErr, length};
ghost use Rattle.sql_meaning.specs.Grammar as grammar;
ghost use Rattle.sql_meaning.specs.Grammar.{Parts, Ending, Sources, Condition, KeyList};
ghost use Rattle.sql_text_cursor.specs.Outcomes.{Gets, Stops, MayStop};
ghost use Rattle.sql_text_bodies.specs.Parts.{FromAt, WhereAt, KeysAt};

use sql_meaning::{Item, JoinTo, Mark, Placed, Source, SqlExpr, SqlKey};
use sql_text_clauses::{may_count, read_condition, read_items, read_keys, read_sources};
use sql_text_cursor::{Refusal, stands};
use sqlite_items::Items;
use std::alloc::Global;

/// The items, sources and condition of a SELECT.
#[derive(Debug, Drop)]
pub struct SelectParts {
    pub items: Items<Item>,
    pub from: Option<Source>,
    pub joins: Items<JoinTo>,
    pub condition: Option<SqlExpr>,
}

/// ORDER BY, LIMIT and OFFSET.
#[derive(Debug, Drop)]
pub struct SelectEnding {
    pub keys: Items<SqlKey>,
    pub most: Option<u64>,
    pub skip: Option<u64>,
}

#[tactic(auto, using(crate::specs::Parts::from_steps))]
fn may_sources(
    alloc: Global,
    tokens: &[Placed],
) -> Result<(Option<Source>, Items<JoinTo>, &[Placed]), Refusal>
    ensures reads { IfOk result (λ r. FromAt tokens.now r.0 r.1 r.2.now) }
    ensures within { IfOk result (λ r. length r.2.now ≤ length tokens.now) }
    ensures refuses { IfErr result (λ e. MayStop Sources tokens.now e) }
{
    if !stands(Mark::From, tokens) {
        return Ok((None, Items::new(alloc), tokens));
    }
    let (source, joins, rest) = read_sources(alloc, tokens)?;
    Ok((Some(source), joins, rest))
}

#[tactic(auto, using(crate::specs::Parts::where_steps))]
fn may_condition(alloc: Global, tokens: &[Placed]) -> Result<(Option<SqlExpr>, &[Placed]), Refusal>
    ensures reads { IfOk result (λ r. WhereAt tokens.now r.0 r.1.now) }
    ensures within { IfOk result (λ r. length r.1.now ≤ length tokens.now) }
    ensures refuses { IfErr result (λ e. MayStop Condition tokens.now e) }
{
    if !stands(Mark::Where, tokens) {
        return Ok((None, tokens));
    }
    let (condition, rest) = read_condition(alloc, tokens)?;
    Ok((Some(condition), rest))
}

/// Reads what stands behind SELECT.
#[tactic(auto, using(crate::specs::Parts::parts_steps))]
pub(crate) fn read_parts(
    alloc: Global,
    tokens: &[Placed],
) -> Result<(SelectParts, &[Placed]), Refusal>
    ensures reads { IfOk result (λ r. Gets Parts tokens.now (grammar.parts r.0.items r.0.from r.0.joins r.0.condition) r.1.now) }
    ensures shorter { IfOk result (λ r. length r.1.now < length tokens.now) }
    ensures refuses { IfErr result (λ e. Stops Parts tokens.now e) }
{
    let (items, rest) = read_items(alloc, tokens)?;
    let (from, joins, rest) = may_sources(alloc, rest)?;
    let (condition, rest) = may_condition(alloc, rest)?;
    let parts = SelectParts {
        items,
        from,
        joins,
        condition,
    };
    Ok((parts, rest))
}

#[tactic(auto, using(crate::specs::Parts::may_keys_steps))]
fn may_keys(alloc: Global, tokens: &[Placed]) -> Result<(Items<SqlKey>, &[Placed]), Refusal>
    ensures reads { IfOk result (λ r. KeysAt tokens.now r.0 r.1.now) }
    ensures within { IfOk result (λ r. length r.1.now ≤ length tokens.now) }
    ensures refuses { IfErr result (λ e. MayStop KeyList tokens.now e) }
{
    if !stands(Mark::Order, tokens) {
        return Ok((Items::new(alloc), tokens));
    }
    let (keys, rest) = read_keys(alloc, tokens)?;
    Ok((keys, rest))
}

/// Reads what ends a SELECT, which may be nothing.
#[tactic(auto, using(crate::specs::Parts::ending_steps))]
pub(crate) fn read_ending(
    alloc: Global,
    tokens: &[Placed],
) -> Result<(SelectEnding, &[Placed]), Refusal>
    ensures reads { IfOk result (λ r. Gets Ending tokens.now (grammar.ending r.0.keys r.0.most r.0.skip) r.1.now) }
    ensures within { IfOk result (λ r. length r.1.now ≤ length tokens.now) }
    ensures refuses { IfErr result (λ e. Stops Ending tokens.now e) }
{
    let (keys, rest) = may_keys(alloc, tokens)?;
    let (most, rest) = may_count(Mark::Limit, rest)?;
    let (skip, rest) = may_count(Mark::Offset, rest)?;
    Ok((SelectEnding { keys, most, skip }, rest))
}
