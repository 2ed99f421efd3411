//! The out of one arm whose predicate is a variable.

ghost use Rattle.std.specs.Prelude.{◌≡◌, IfOk};
ghost use Rattle.sql_gen_outs.specs.Told.{out_of};
ghost use Rattle.sql_gen_star_out_laws.specs.StarOuts.{pairs_out};

use crate::access::{certain, told_columns};
use pred_columns::{IdPair, LayoutFacts};
use query_plan_meaning::{Arm, Star};
use sql_gen_arms::asked_slot;
use sql_gen_numbered_meaning::NumberedBody;
use sql_gen_outs::Out;
use sql_gen_stars::asked_vars;
use sqlite_items::Items;
use std::alloc::{AllocError, Global};

/// The step of pairs, and the one that opens the value's lists.
pub(crate) fn pairs_out(
    alloc: Global,
    facts: &LayoutFacts,
    ids: &[IdPair],
    star: &Star,
    arm: &Arm,
) -> Result<Out, AllocError>
    ensures { IfOk result (λ out. out_of out ≡ pairs_out facts.now ids.now star.now arm.now) }
{
    let entity = asked_slot(ids, &[], &star.entity);
    let first = Items::from_vec(asked_vars(alloc, entity, &[])?);
    let predicate = asked_slot(ids, first.as_slice(), &arm.pred);
    let firsts = Items::from_vec(asked_vars(alloc, predicate, first.as_slice())?);
    let value = asked_slot(ids, firsts.as_slice(), &arm.value);
    let variables = Items::from_vec(asked_vars(alloc, value, firsts.as_slice())?);
    let columns = told_columns(facts, star.side).count();
    let mut steps = Vec::new(alloc);
    steps.push(NumberedBody::Pairs {
        side: star.side,
        entity,
        predicate,
        columns,
    })?;
    steps.push(NumberedBody::Open {
        side: star.side,
        first: 0,
        firsts,
        arm: 0,
        later: Items::new(alloc),
        asked: value,
    })?;
    Ok(Out {
        steps,
        last: 1,
        variables,
        certain: certain(star),
    })
}
