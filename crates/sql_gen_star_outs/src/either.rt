//! The out of two lists of arms.

ghost use Rattle.std.specs.Prelude.{◌≡◌, ◌∷◌, ◌++◌, List, length, IfOk};
ghost use Rattle.query_plan_meaning.specs.declared.star.Arm.{Arm};
ghost use Rattle.sql_gen_outs.specs.Told.{out_of};
ghost use Rattle.sql_gen_star_out_laws.specs.StarOuts.{either_out};

use crate::access::{certain, has_one_arm, held, star_arms, told_columns, with_access};
use pred_columns::{IdPair, LayoutFacts};
use query_plan_meaning::{Arm, Star};
use sql_gen_arms::{Chain, asked_slot, opened};
use sql_gen_numbered_meaning::NumberedBody;
use sql_gen_outs::Out;
use sql_gen_star_meaning::StarArm;
use sql_gen_stars::asked_vars;
use sql_gen_steps::both;
use sqlite_items::Items;
use std::alloc::{AllocError, Global};

/// All arms, those of the first list before those of the second.
fn chained(mut left: Items<StarArm>, right: Items<StarArm>) -> Result<Items<StarArm>, AllocError>
    ensures { IfOk result (λ arms. arms ≡ left ++ right) }
{
    left.append(right)?;
    Ok(left)
}

/// The number behind the last arm. No memory holds arms beyond the last number.
fn count(arms: &[StarArm]) -> Result<u32, AllocError>
    ensures { IfOk result (λ n. n ≡ length arms.now) }
{
    let Ok(count) = u32::try_from(arms.len()) else {
        return Err(AllocError);
    };
    Ok(count)
}

/// One access step, the steps of the first list, those of the second, and the rows of both. Each list has a first arm.
pub(crate) fn either_out(
    alloc: Global,
    facts: &LayoutFacts,
    ids: &[IdPair],
    star: &Star,
    left: &[Arm],
    right: &[Arm],
) -> Result<Out, AllocError>
    ensures { IfOk result (λ out. (a b : Arm) (ls rs : List Arm) → left.now ≡ a ∷ ls → right.now ≡ b ∷ rs → out_of out ≡ either_out facts.now ids.now star.now (record { first = a; others = ls }) (record { first = b; others = rs })) }
{
    let entity = asked_slot(ids, &[], &star.entity);
    let columns = told_columns(facts, star.side);
    let left = star_arms(alloc, columns, ids, entity, left, &[])?;
    let right = star_arms(alloc, columns, ids, entity, right, &[])?;
    let first = opened(alloc, star.side, held(alloc, entity)?, 0, left.as_slice())?;
    let count = count(left.as_slice())?;
    let chain = Chain {
        steps: first.steps,
        before: 0,
        bound: asked_vars(alloc, entity, &[])?,
    };
    let second = opened(alloc, star.side, chain, count, right.as_slice())?;
    let variables = both(alloc, first.bound.as_slice(), second.bound.as_slice())?;
    let mut steps = second.steps;
    let last = steps.len();
    steps.push(NumberedBody::United {
        first: first.before,
        second: second.before,
        firsts: Items::from_vec(first.bound),
        seconds: Items::from_vec(second.bound),
    })?;
    let access = NumberedBody::Access {
        side: star.side,
        spilled: has_one_arm(&star.body),
        entity,
        arms: chained(left, right)?,
    };
    Ok(Out {
        steps: with_access(steps, access),
        last,
        variables: Items::from_vec(variables),
        certain: certain(star),
    })
}
