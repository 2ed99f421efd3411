//! Outs of two parts.

ghost use Rattle.std.specs.Prelude.{◌≡◌, IfOk};
ghost use Rattle.sql_gen_node_laws.specs.Nodes.{pair_step, matched_step, passed_step, kept_step, joined_out, optional_out, united_out, conditional_out};
ghost use Rattle.sql_gen_outs.specs.Told.{out_of};

use crate::numbers::{further, put_behind};
use crate::out::Out;
use crate::variables::{both, certain_both, certain_either, certain_own, certain_shared, copied};
use query_meaning::VarId;
use sql_gen_numbered_meaning::NumberedBody;
use sql_meaning::SqlExpr;
use sqlite_items::Items;
use std::alloc::{AllocError, Global};

/// The JOIN, or the LEFT JOIN, of the last steps of both parts.
fn joined_step(
    alloc: Global,
    left: bool,
    first: &Out,
    second: &Out,
) -> Result<NumberedBody, AllocError>
    ensures { IfOk result (λ b. b ≡ pair_step left (out_of first.now) (out_of second.now)) }
{
    Ok(NumberedBody::Joined {
        left,
        first: first.last,
        second: further(first.steps.len(), second.last)?,
        firsts: copied(alloc, &first.variables)?,
        seconds: copied(alloc, &second.variables)?,
        certain: certain_shared(alloc, first, second)?,
    })
}

/// The pairs of rows of both parts that fit.
fn matched_step(alloc: Global, first: &Out, second: &Out) -> Result<NumberedBody, AllocError>
    ensures { IfOk result (λ b. b ≡ matched_step (out_of first.now) (out_of second.now)) }
{
    Ok(NumberedBody::Matched {
        first: first.last,
        second: further(first.steps.len(), second.last)?,
        firsts: copied(alloc, &first.variables)?,
        seconds: copied(alloc, &second.variables)?,
        certain: certain_shared(alloc, first, second)?,
    })
}

/// Those pairs of which the condition is true.
fn passed_step(
    alloc: Global,
    first: &Out,
    second: &Out,
    terms: Items<VarId>,
    condition: SqlExpr,
) -> Result<NumberedBody, AllocError>
    ensures { IfOk result (λ b. b ≡ passed_step (out_of first.now) (out_of second.now) terms condition) }
{
    Ok(NumberedBody::Passed {
        pairs: further(first.steps.len(), second.steps.len())?,
        firsts: copied(alloc, &first.variables)?,
        seconds: copied(alloc, &second.variables)?,
        terms,
        condition,
    })
}

/// These, and the rows of the first part that have none.
fn kept_step(alloc: Global, first: &Out, second: &Out) -> Result<NumberedBody, AllocError>
    ensures { IfOk result (λ b. b ≡ kept_step (out_of first.now) (out_of second.now)) }
{
    let pairs = further(first.steps.len(), second.steps.len())?;
    Ok(NumberedBody::Optional {
        first: first.last,
        pairs: further(pairs, 1)?,
        firsts: copied(alloc, &first.variables)?,
        seconds: copied(alloc, &second.variables)?,
        certain: certain_own(alloc, first)?,
    })
}

/// The out of a Join (SPARQL 1.1 Query, section 18.5, Join): one step over the last steps of both parts.
pub fn joined(alloc: Global, first: Out, second: Out) -> Result<Out, AllocError>
    ensures { IfOk result (λ out. out_of out ≡ joined_out (out_of first) (out_of second)) }
{
    let step = joined_step(alloc, false, &first, &second)?;
    let variables = both(alloc, &first, &second)?;
    let certain = certain_either(&first, &second);
    let mut steps = put_behind(first.steps, second.steps)?;
    let last = steps.len();
    steps.push(step)?;
    Ok(Out {
        steps,
        last,
        variables,
        certain,
    })
}

/// The out of a LeftJoin without a condition (SPARQL 1.1 Query, section 18.5, LeftJoin).
pub fn optional(alloc: Global, first: Out, second: Out) -> Result<Out, AllocError>
    ensures { IfOk result (λ out. out_of out ≡ optional_out (out_of first) (out_of second)) }
{
    let step = joined_step(alloc, true, &first, &second)?;
    let variables = both(alloc, &first, &second)?;
    let mut steps = put_behind(first.steps, second.steps)?;
    let last = steps.len();
    steps.push(step)?;
    Ok(Out {
        steps,
        last,
        variables,
        certain: first.certain,
    })
}

/// The out of a Union (SPARQL 1.1 Query, section 18.5, Union).
pub fn united(alloc: Global, first: Out, second: Out) -> Result<Out, AllocError>
    ensures { IfOk result (λ out. out_of out ≡ united_out (out_of first) (out_of second)) }
{
    let variables = both(alloc, &first, &second)?;
    let certain = certain_both(&first, &second);
    let step = NumberedBody::United {
        first: first.last,
        second: further(first.steps.len(), second.last)?,
        firsts: first.variables,
        seconds: second.variables,
    };
    let mut steps = put_behind(first.steps, second.steps)?;
    let last = steps.len();
    steps.push(step)?;
    Ok(Out {
        steps,
        last,
        variables,
        certain,
    })
}

/// The out of a LeftJoin with a condition (SPARQL 1.1 Query, section 18.5, LeftJoin), which is in SQL over the terms of some
/// variables: a step of the pairs that fit, one of those that pass, and one with the rows of the first part that have none.
pub fn conditional(
    alloc: Global,
    first: Out,
    second: Out,
    terms: Items<VarId>,
    condition: SqlExpr,
) -> Result<Out, AllocError>
    ensures { IfOk result (λ out. out_of out ≡ conditional_out (out_of first) (out_of second) terms condition) }
{
    let matched = matched_step(alloc, &first, &second)?;
    let passed = passed_step(alloc, &first, &second, terms, condition)?;
    let kept = kept_step(alloc, &first, &second)?;
    let variables = both(alloc, &first, &second)?;
    let mut steps = put_behind(first.steps, second.steps)?;
    let last = further(steps.len(), 2)?;
    steps.push(matched)?;
    steps.push(passed)?;
    steps.push(kept)?;
    Ok(Out {
        steps,
        last,
        variables,
        certain: first.certain,
    })
}
