//! Cores and bodies.

ghost use Rattle.std.specs.Prelude.{◌≡◌, ◌<◌, IfOk, IfErr, length};
ghost use Rattle.sql_meaning.specs.Grammar as grammar;
ghost use Rattle.sql_meaning.specs.Grammar.{Plain, Unions, OneBody, a_core, a_body};
ghost use Rattle.sql_text_cursor.specs.Outcomes.{Fault, Gets, Stops};
ghost use Rattle.sql_text_cursor.specs.Table.{body_after};
ghost use Rattle.sql_text_bodies.specs.Bodies as bodies;

use crate::parts::{SelectEnding, SelectParts, read_ending, read_parts};
use sql_meaning::{Body, Core, Mark, Placed};
use sql_text_cursor::{Refusal, after_mark, expect, stands};
use sqlite_items::Items;
use std::alloc::Global;

// A SELECT without DISTINCT, ORDER BY, LIMIT and OFFSET.
fn plain_core(alloc: Global, parts: SelectParts) -> Core
    ensures { result ≡ grammar.plain_core (grammar.parts parts.items parts.from parts.joins parts.condition) }
{
    Core {
        distinct: false,
        items: parts.items,
        from: parts.from,
        joins: parts.joins,
        condition: parts.condition,
        keys: Items::new(alloc),
        most: None,
        skip: None,
    }
}

fn core_of(distinct: bool, parts: SelectParts, ending: SelectEnding) -> Core
    ensures { result ≡ grammar.core_of distinct (grammar.parts parts.items parts.from parts.joins parts.condition) (grammar.ending ending.keys ending.most ending.skip) }
{
    Core {
        distinct,
        items: parts.items,
        from: parts.from,
        joins: parts.joins,
        condition: parts.condition,
        keys: ending.keys,
        most: ending.most,
        skip: ending.skip,
    }
}

#[tactic(auto, using(crate::specs::Bodies::plain_steps))]
fn read_plain(alloc: Global, tokens: &[Placed]) -> Result<(Core, &[Placed]), Refusal>
    ensures reads { IfOk result (λ r. Gets Plain tokens.now (a_core r.0) r.1.now) }
    ensures shorter { IfOk result (λ r. length r.1.now < length tokens.now) }
    ensures refuses { IfErr result (λ e. Stops Plain tokens.now e) }
{
    let rest = expect(Mark::Union, tokens)?;
    let rest = expect(Mark::All, rest)?;
    let rest = expect(Mark::Select, rest)?;
    let (parts, rest) = read_parts(alloc, rest)?;
    Ok((plain_core(alloc, parts), rest))
}

// The cores behind a first one, and all of them.
#[tactic(auto, using(crate::specs::Bodies::unions_steps))]
fn read_unions(
    alloc: Global,
    first: Core,
    tokens: &[Placed],
) -> Result<(Items<Core>, &[Placed]), Refusal>
    ensures reads { IfOk result (λ r. bodies.UnionsAt first tokens.now r.0 r.1.now) }
    ensures shorter { IfOk result (λ r. length r.1.now < length tokens.now) }
    ensures refuses { IfErr result (λ e. Stops Unions tokens.now e) }
{
    let mut cores = Items::new(alloc);
    cores.push(first)?;
    let (core, mut rest) = read_plain(alloc, tokens)?;
    cores.push(core)?;
    'cores: while stands(Mark::Union, rest) {
        let (core, after) = read_plain(alloc, rest)?;
        cores.push(core)?;
        rest = after;
    }
    Ok((cores, rest))
}

// What stands behind SELECT DISTINCT.
#[tactic(auto, using(crate::specs::Bodies::distinct_steps))]
fn read_distinct(alloc: Global, tokens: &[Placed]) -> Result<(Items<Core>, &[Placed]), Refusal>
    ensures reads { IfOk result (λ r. bodies.DistinctAt tokens.now r.0 r.1.now) }
    ensures shorter { IfOk result (λ r. length r.1.now < length tokens.now) }
    ensures refuses { IfErr result (λ e. Fault body_after bodies.distinct_form tokens.now e) }
{
    let (parts, rest) = read_parts(alloc, tokens)?;
    let (ending, rest) = read_ending(alloc, rest)?;
    let mut cores = Items::new(alloc);
    cores.push(core_of(true, parts, ending))?;
    Ok((cores, rest))
}

// What stands behind another SELECT.
#[tactic(auto, using(crate::specs::Bodies::cores_steps))]
fn read_cores(alloc: Global, tokens: &[Placed]) -> Result<(Items<Core>, &[Placed]), Refusal>
    ensures reads { IfOk result (λ r. bodies.CoresAt tokens.now r.0 r.1.now) }
    ensures shorter { IfOk result (λ r. length r.1.now < length tokens.now) }
    ensures refuses { IfErr result (λ e. Fault body_after bodies.cores_form tokens.now e) }
{
    let (parts, rest) = read_parts(alloc, tokens)?;
    if stands(Mark::Union, rest) {
        let (cores, rest) = read_unions(alloc, plain_core(alloc, parts), rest)?;
        return Ok((cores, rest));
    }
    let (ending, rest) = read_ending(alloc, rest)?;
    let mut cores = Items::new(alloc);
    cores.push(core_of(false, parts, ending))?;
    Ok((cores, rest))
}

/// Reads a body: one SELECT, or several joined by UNION ALL, from the front of the tokens.
#[tactic(auto, using(crate::specs::Bodies::body_steps))]
pub fn read_body(alloc: Global, tokens: &[Placed]) -> Result<(Body, &[Placed]), Refusal>
    ensures reads { IfOk result (λ r. Gets OneBody tokens.now (a_body r.0) r.1.now) }
    ensures shorter { IfOk result (λ r. length r.1.now < length tokens.now) }
    ensures refuses { IfErr result (λ e. Stops OneBody tokens.now e) }
{
    let rest = expect(Mark::Select, tokens)?;
    if let Some(rest) = after_mark(Mark::Distinct, rest) {
        let (cores, rest) = read_distinct(alloc, rest)?;
        return Ok((Body { cores }, rest));
    }
    let (cores, rest) = read_cores(alloc, rest)?;
    Ok((Body { cores }, rest))
}
