//! The SELECTs of a step.

ghost use Rattle.std.specs.Prelude.{◌≡◌, ◌<◌, ◌≤◌, not, length, IfOk};
ghost use Rattle.std.specs.List.{AllByRecursion};
ghost use Rattle.sql_gen_step_laws.specs.StepSelects.{both, join_core, union_body};
ghost use Rattle.sql_gen_term_laws.specs.Filters.{filter_core};
ghost use Rattle.sql_gen_optional_laws.specs.MatchRows.{optional_body};
ghost use Rattle.sql_gen_matched_laws.specs.PassedSelect.{passed_core};
ghost use Rattle.sql_gen_last_laws.specs.DistinctSelect.{distinct_core};
ghost use Rattle.sql_gen_star_meaning.specs.StarSelects.{access_core, open_core};
ghost use Rattle.sql_gen_star_meaning.specs.Openings.{openings_from, access_arms, cells_of};
ghost use Rattle.sql_gen_numbered_meaning.specs.Numbered.{primary_name, lists_name, terms_name, single_core, pairs_core, lone, body_under};
ghost use Rattle.sql_gen_numbered_meaning.specs.Namings.{step_name};
ghost use Rattle.sql_gen_scripts.specs.Arms.{HasNamedArms};

use crate::names::{TERMS, lists_name, primary_name, step_name};
use query_meaning::VarId;
use rdf_meaning::SideName;
use sql_gen_last::distinct_core;
use sql_gen_numbered_meaning::NumberedBody;
use sql_gen_star_meaning::{Asked, StarArm};
use sql_gen_stars::{access_core, open_core, pairs_body};
use sql_gen_steps::{
    Carrier, Condition, both, filter_core, join_core, optional_body, pairs_core, passed_core,
    single_core, union_body,
};
use sql_meaning::{Body, Core, SqlExpr};
use sqlite_items::Items;
use std::alloc::{AllocError, Global};

/// An earlier step: its number, and its variables.
#[derive(Clone, Copy)]
struct Earlier<'a> {
    number: usize,
    variables: &'a [VarId],
}

/// One SELECT.
pub(crate) fn lone(alloc: Global, core: Core) -> Result<Body, AllocError>
    ensures { IfOk result (λ b. b ≡ lone core) }
{
    let mut cores = Items::new(alloc);
    cores.push(core)?;
    Ok(Body { cores })
}

fn single(alloc: Global) -> Result<Body, AllocError>
    ensures { IfOk result (λ b. b ≡ lone single_core) }
{
    let core = single_core(alloc)?;
    lone(alloc, core)
}

fn access(
    alloc: Global,
    side: SideName,
    spilled: bool,
    entity: Asked,
    arms: &[StarArm],
) -> Result<Body, AllocError>
    requires { length arms.now ≤ 100 }
    ensures { IfOk result (λ b. b ≡ lone (access_core (primary_name side) (not spilled) entity (access_arms arms.now) (cells_of (openings_from 0 arms.now)))) }
{
    let core = access_core(alloc, primary_name(side), !spilled, entity, arms)?;
    lone(alloc, core)
}

fn open(
    alloc: Global,
    side: SideName,
    before: Earlier,
    arm: u32,
    later: &[u32],
    asked: Asked,
) -> Result<Body, AllocError>
    requires arm { arm < 100 }
    requires later { AllByRecursion (λ i. i < 100) later.now }
    ensures { IfOk result (λ b. b ≡ lone (open_core (step_name before.entry.number) (lists_name side) before.entry.variables.now arm later.now asked)) }
{
    let name = step_name(alloc, before.number)?;
    let core = open_core(
        alloc,
        name.as_str(),
        lists_name(side),
        before.variables,
        arm,
        later,
        asked,
    )?;
    lone(alloc, core)
}

fn joined(
    alloc: Global,
    left: bool,
    first: Earlier,
    second: Earlier,
    certain: &[VarId],
) -> Result<Body, AllocError>
    ensures { IfOk result (λ b. b ≡ lone (join_core left (step_name first.entry.number) (step_name second.entry.number) first.entry.variables.now second.entry.variables.now certain.now)) }
{
    let a = step_name(alloc, first.number)?;
    let b = step_name(alloc, second.number)?;
    let first = Carrier {
        name: a.as_str(),
        variables: first.variables,
    };
    let second = Carrier {
        name: b.as_str(),
        variables: second.variables,
    };
    let core = join_core(alloc, left, first, second, certain)?;
    lone(alloc, core)
}

fn united(alloc: Global, first: Earlier, second: Earlier) -> Result<Body, AllocError>
    ensures { IfOk result (λ b. b ≡ union_body (step_name first.entry.number) (step_name second.entry.number) first.entry.variables.now second.entry.variables.now) }
{
    let a = step_name(alloc, first.number)?;
    let b = step_name(alloc, second.number)?;
    let first = Carrier {
        name: a.as_str(),
        variables: first.variables,
    };
    let second = Carrier {
        name: b.as_str(),
        variables: second.variables,
    };
    union_body(alloc, first, second)
}

fn filtered(
    alloc: Global,
    first: Earlier,
    terms: &[VarId],
    condition: SqlExpr,
) -> Result<Body, AllocError>
    ensures { IfOk result (λ b. b ≡ lone (filter_core (step_name first.entry.number) terms_name first.entry.variables.now terms.now condition)) }
{
    let name = step_name(alloc, first.number)?;
    let step = Carrier {
        name: name.as_str(),
        variables: first.variables,
    };
    let condition = Condition {
        terms: TERMS,
        variables: terms,
        test: condition,
    };
    let core = filter_core(alloc, step, condition)?;
    lone(alloc, core)
}

fn matched(
    alloc: Global,
    first: Earlier,
    second: Earlier,
    certain: &[VarId],
) -> Result<Body, AllocError>
    ensures { IfOk result (λ b. b ≡ lone (pairs_core (step_name first.entry.number) (step_name second.entry.number) first.entry.variables.now second.entry.variables.now certain.now)) }
{
    let a = step_name(alloc, first.number)?;
    let b = step_name(alloc, second.number)?;
    let first = Carrier {
        name: a.as_str(),
        variables: first.variables,
    };
    let second = Carrier {
        name: b.as_str(),
        variables: second.variables,
    };
    let core = pairs_core(alloc, first, second, certain)?;
    lone(alloc, core)
}

fn passed(
    alloc: Global,
    pairs: Earlier,
    seconds: &[VarId],
    terms: &[VarId],
    condition: SqlExpr,
) -> Result<Body, AllocError>
    ensures { IfOk result (λ b. b ≡ lone (passed_core (step_name pairs.entry.number) terms_name pairs.entry.variables.now (both pairs.entry.variables.now seconds.now) terms.now condition)) }
{
    let name = step_name(alloc, pairs.number)?;
    let all = both(alloc, pairs.variables, seconds)?;
    let step = Carrier {
        name: name.as_str(),
        variables: &all,
    };
    let condition = Condition {
        terms: TERMS,
        variables: terms,
        test: condition,
    };
    let core = passed_core(alloc, step, pairs.variables, condition)?;
    lone(alloc, core)
}

fn optional(
    alloc: Global,
    first: Earlier,
    pairs: usize,
    seconds: &[VarId],
    certain: &[VarId],
) -> Result<Body, AllocError>
    ensures { IfOk result (λ b. b ≡ optional_body (step_name first.entry.number) (step_name pairs) first.entry.variables.now seconds.now certain.now) }
{
    let name = step_name(alloc, first.number)?;
    let matches = step_name(alloc, pairs)?;
    let step = Carrier {
        name: name.as_str(),
        variables: first.variables,
    };
    optional_body(alloc, step, matches.as_str(), seconds, certain)
}

fn distinct(alloc: Global, first: Earlier, shown: &[VarId]) -> Result<Body, AllocError>
    ensures { IfOk result (λ b. b ≡ lone (distinct_core (step_name first.entry.number) first.entry.variables.now shown.now)) }
{
    let name = step_name(alloc, first.number)?;
    let step = Carrier {
        name: name.as_str(),
        variables: first.variables,
    };
    let core = distinct_core(alloc, step, shown)?;
    lone(alloc, core)
}

fn read_of(number: usize, variables: &Items<VarId>) -> Earlier
    ensures number { result.number ≡ number }
    ensures variables { result.variables.now ≡ variables.now }
{
    Earlier {
        number,
        variables: variables.as_slice(),
    }
}

/// The SELECTs of a step, with names for the numbers of the steps that it reads.
pub(crate) fn body(alloc: Global, body: NumberedBody) -> Result<Body, AllocError>
    requires { HasNamedArms body }
    ensures { IfOk result (λ b. b ≡ body_under step_name body) }
{
    match body {
        NumberedBody::Single => single(alloc),
        NumberedBody::Access {
            side,
            spilled,
            entity,
            arms,
        } => access(alloc, side, spilled, entity, arms.as_slice()),
        NumberedBody::Pairs {
            side,
            entity,
            predicate,
            columns,
        } => pairs_body(alloc, primary_name(side), entity, predicate, columns),
        NumberedBody::Open {
            side,
            first,
            firsts,
            arm,
            later,
            asked,
        } => open(
            alloc,
            side,
            read_of(first, &firsts),
            arm,
            later.as_slice(),
            asked,
        ),
        NumberedBody::Joined {
            left,
            first,
            second,
            firsts,
            seconds,
            certain,
        } => joined(
            alloc,
            left,
            read_of(first, &firsts),
            read_of(second, &seconds),
            certain.as_slice(),
        ),
        NumberedBody::United {
            first,
            second,
            firsts,
            seconds,
        } => united(alloc, read_of(first, &firsts), read_of(second, &seconds)),
        NumberedBody::Filtered {
            first,
            firsts,
            terms,
            condition,
        } => filtered(alloc, read_of(first, &firsts), terms.as_slice(), condition),
        NumberedBody::Matched {
            first,
            second,
            firsts,
            seconds,
            certain,
        } => matched(
            alloc,
            read_of(first, &firsts),
            read_of(second, &seconds),
            certain.as_slice(),
        ),
        NumberedBody::Passed {
            pairs,
            firsts,
            seconds,
            terms,
            condition,
        } => passed(
            alloc,
            read_of(pairs, &firsts),
            seconds.as_slice(),
            terms.as_slice(),
            condition,
        ),
        NumberedBody::Optional {
            first,
            pairs,
            firsts,
            seconds,
            certain,
        } => optional(
            alloc,
            read_of(first, &firsts),
            pairs,
            seconds.as_slice(),
            certain.as_slice(),
        ),
        NumberedBody::Distinct {
            first,
            firsts,
            shown,
        } => distinct(alloc, read_of(first, &firsts), shown.as_slice()),
    }
}
