//! The out of arms whose predicates are constants.

ghost use Rattle.std.specs.Prelude.{◌≡◌, ◌∷◌, List, IfOk};
ghost use Rattle.query_plan_meaning.specs.declared.star.Arm.{Arm};
ghost use Rattle.sql_gen_outs.specs.Told.{out_of};
ghost use Rattle.sql_gen_star_out_laws.specs.StarOuts.{arms_out};

use crate::access::{certain, has_one_arm, held, star_arms, told_columns, with_access};
use pred_columns::{IdPair, LayoutFacts};
use query_plan_meaning::{Arm, Star};
use sql_gen_arms::{asked_slot, opened};
use sql_gen_numbered_meaning::NumberedBody;
use sql_gen_outs::Out;
use sqlite_items::Items;
use std::alloc::{AllocError, Global};

/// The access step, and a step for each arm. The first arm is required.
pub(crate) fn arms_out(
    alloc: Global,
    facts: &LayoutFacts,
    ids: &[IdPair],
    star: &Star,
    required: &[Arm],
    optional: &[Arm],
) -> Result<Out, AllocError>
    ensures { IfOk result (λ out. (a : Arm) (ps : List Arm) → required.now ≡ a ∷ ps → out_of out ≡ arms_out facts.now ids.now star.now (record { first = a; required = ps; optional = optional.now })) }
{
    let entity = asked_slot(ids, &[], &star.entity);
    let columns = told_columns(facts, star.side);
    let arms = star_arms(alloc, columns, ids, entity, required, optional)?;
    let chain = opened(alloc, star.side, held(alloc, entity)?, 0, arms.as_slice())?;
    let access = NumberedBody::Access {
        side: star.side,
        spilled: has_one_arm(&star.body),
        entity,
        arms,
    };
    Ok(Out {
        steps: with_access(chain.steps, access),
        last: chain.before,
        variables: Items::from_vec(chain.bound),
        certain: certain(star),
    })
}
