//! The out of any star.

ghost use Rattle.std.specs.Prelude.{◌≡◌, IfOk};
ghost use Rattle.sql_gen_outs.specs.Told.{out_of};
ghost use Rattle.sql_gen_star_out_laws.specs.StarOuts.{no_out, star_out};

use crate::access::certain;
use crate::arms::arms_out;
use crate::either::either_out;
use crate::pairs::pairs_out;
use pred_columns::{LayoutFacts, QueryIds};
use query_meaning::Slot;
use query_plan_meaning::{Star, StarBody};
use sql_gen_outs::Out;
use sqlite_items::Items;
use std::alloc::{AllocError, Global};

// A star that has no required arm stands for nothing.
fn no_out(alloc: Global, star: &Star) -> Out
    ensures { out_of result ≡ no_out star.now }
{
    Out {
        steps: Vec::new(alloc),
        last: 0,
        variables: Items::new(alloc),
        certain: certain(star),
    }
}

/// The out of a star: by its body, and by the predicate of its first arm. A star without an arm that must have a value has
/// no steps.
///
/// # Errors
///
/// Want of memory.
pub fn star_out(
    alloc: Global,
    facts: &LayoutFacts,
    ids: &QueryIds,
    star: &Star,
) -> Result<Out, AllocError>
    ensures { IfOk result (λ out. out_of out ≡ star_out facts.now ids.now star.now) }
{
    let ids = ids.pairs.as_slice();
    match &star.body {
        StarBody::Both { required, optional } => match required.as_slice().first() {
            None => Ok(no_out(alloc, star)),
            Some(arm) => match arm.pred {
                Slot::Var(_) => pairs_out(alloc, facts, ids, star, arm),
                Slot::Const(_) => {
                    let (required, optional) = (required.as_slice(), optional.as_slice());
                    arms_out(alloc, facts, ids, star, required, optional)
                }
            },
        },
        StarBody::Either { left, right } => {
            if left.is_empty() || right.is_empty() {
                return Ok(no_out(alloc, star));
            }
            either_out(alloc, facts, ids, star, left.as_slice(), right.as_slice())
        }
    }
}
