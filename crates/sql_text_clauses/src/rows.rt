//! Items, sources and joins.

ghost use Rattle.std.specs.Prelude.{◌≤◌, ◌<◌, ◌∷◌, [], IfOk, IfErr, IsTrue, IsFalse, length};
ghost use Rattle.sql_meaning.specs.Grammar.{OneItem, ItemList, OneSource, OneJoin, Sources, an_item, item_list, a_source, a_join, sources};
ghost use Rattle.sql_meaning.specs.Kinds.{a_mark};
ghost use Rattle.sql_meaning.specs.declared.token.Mark.TheVariants as m;
ghost use Rattle.sql_text_cursor.specs.Table.{NoneOf, SomeOf};
ghost use Rattle.sql_text_cursor.specs.Outcomes.{Gets, Stops};
ghost use Rattle.sql_text_clauses.specs.Rows.{MarkMay};

use sql_meaning::{Item, JoinTo, Mark, Placed, Source};
use sql_text_cursor::{Refusal, after_mark, expect, read_name, stands};
use sql_text_expressions::read_expr;
use sqlite_items::Items;
use std::alloc::Global;

#[tactic(auto, using(crate::specs::Rows::item_steps))]
fn read_item(alloc: Global, tokens: &[Placed]) -> Result<(Item, &[Placed]), Refusal>
    ensures reads { IfOk result (λ r. Gets OneItem tokens.now (an_item r.0) r.1.now) }
    ensures shorter { IfOk result (λ r. length r.1.now < length tokens.now) }
    ensures refuses { IfErr result (λ e. Stops OneItem tokens.now e) }
{
    let (expr, rest) = read_expr(alloc, 0, tokens)?;
    let rest = expect(Mark::As, rest)?;
    let (name, rest) = read_name(alloc, rest)?;
    Ok((Item { expr, name }, rest))
}

/// Reads items, one or more, from the front of the tokens.
#[tactic(auto, using(crate::specs::Rows::items_steps))]
pub fn read_items(alloc: Global, tokens: &[Placed]) -> Result<(Items<Item>, &[Placed]), Refusal>
    ensures reads { IfOk result (λ r. Gets ItemList tokens.now (item_list r.0) r.1.now) }
    ensures shorter { IfOk result (λ r. length r.1.now < length tokens.now) }
    ensures refuses { IfErr result (λ e. Stops ItemList tokens.now e) }
{
    let (item, mut rest) = read_item(alloc, tokens)?;
    let mut items = Items::new(alloc);
    items.push(item)?;
    while let Some(after) = after_mark(Mark::Comma, rest) {
        let (item, after) = read_item(alloc, after)?;
        items.push(item)?;
        rest = after;
    }
    Ok((items, rest))
}

#[tactic(auto, using(crate::specs::Rows::source_steps))]
fn read_source(alloc: Global, tokens: &[Placed]) -> Result<(Source, &[Placed]), Refusal>
    ensures reads { IfOk result (λ r. Gets OneSource tokens.now (a_source r.0) r.1.now) }
    ensures shorter { IfOk result (λ r. length r.1.now < length tokens.now) }
    ensures refuses { IfErr result (λ e. Stops OneSource tokens.now e) }
{
    let (table, rest) = read_name(alloc, tokens)?;
    let rest = expect(Mark::As, rest)?;
    let (alias, rest) = read_name(alloc, rest)?;
    Ok((Source { table, alias }, rest))
}

// Whether the mark is in front, and what is left behind it.
#[tactic(auto, using(crate::specs::Rows::mark_steps))]
pub(crate) fn may_mark(mark: Mark, tokens: &[Placed]) -> (bool, &[Placed])
    ensures reads { MarkMay mark tokens.now result.0 result.1.now }
    ensures within { length result.1.now ≤ length tokens.now }
{
    match after_mark(mark, tokens) {
        Some(rest) => (true, rest),
        None => (false, tokens),
    }
}

#[tactic(auto, using(crate::specs::Rows::join_steps))]
fn read_join(alloc: Global, tokens: &[Placed]) -> Result<(JoinTo, &[Placed]), Refusal>
    ensures reads { IfOk result (λ r. Gets OneJoin tokens.now (a_join r.0) r.1.now) }
    ensures shorter { IfOk result (λ r. length r.1.now < length tokens.now) }
    ensures refuses { IfErr result (λ e. Stops OneJoin tokens.now e) }
{
    let (left, rest) = may_mark(Mark::Left, tokens);
    let rest = expect(Mark::Join, rest)?;
    let (source, rest) = read_source(alloc, rest)?;
    let rest = expect(Mark::On, rest)?;
    let (on, rest) = read_expr(alloc, 0, rest)?;
    Ok((JoinTo { left, source, on }, rest))
}

#[tactic(auto, using(crate::specs::Rows::ahead_steps))]
fn join_ahead(tokens: &[Placed]) -> bool
    ensures yes { IsTrue result → SomeOf (a_mark m.Left ∷ a_mark m.Join ∷ []) tokens.now }
    ensures no { IsFalse result → NoneOf (a_mark m.Left ∷ a_mark m.Join ∷ []) tokens.now }
{
    if stands(Mark::Left, tokens) {
        true
    } else {
        stands(Mark::Join, tokens)
    }
}

/// Reads FROM with its first source and the joins behind it.
#[tactic(auto, using(crate::specs::Rows::sources_steps))]
pub fn read_sources(
    alloc: Global,
    tokens: &[Placed],
) -> Result<(Source, Items<JoinTo>, &[Placed]), Refusal>
    ensures reads { IfOk result (λ r. Gets Sources tokens.now (sources r.0 r.1) r.2.now) }
    ensures shorter { IfOk result (λ r. length r.2.now < length tokens.now) }
    ensures refuses { IfErr result (λ e. Stops Sources tokens.now e) }
{
    let rest = expect(Mark::From, tokens)?;
    let (source, mut rest) = read_source(alloc, rest)?;
    let mut joins = Items::new(alloc);
    'joins: while join_ahead(rest) {
        let (join, after) = read_join(alloc, rest)?;
        joins.push(join)?;
        rest = after;
    }
    Ok((source, joins, rest))
}
