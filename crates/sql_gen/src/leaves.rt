//! The out of a leaf.

ghost use Rattle.std.specs.Prelude.{◌≡◌, IfOk};
ghost use Rattle.sql_gen_outs.specs.Told.{out_of};
ghost use Rattle.sql_gen_tree_laws.specs.TreeOuts.{leaf_out};

use pred_columns::{LayoutFacts, QueryIds};
use query_plan_meaning::Star;
use sql_gen_outs::{Out, empty, joined};
use sql_gen_star_outs::star_out;
use std::alloc::{AllocError, Global};

/// The stars of a leaf from left to right, each joined to those before it.
pub(crate) fn leaf_out(
    alloc: Global,
    facts: &LayoutFacts,
    ids: &QueryIds,
    stars: &[Star],
) -> Result<Out, AllocError>
    ensures { IfOk result (λ out. out_of out ≡ leaf_out facts.now ids.now stars.now) }
{
    let Some((star, others)) = stars.split_first() else {
        return empty(alloc);
    };
    let mut out = star_out(alloc, facts, ids, star)?;
    for other in others {
        out = joined(alloc, out, star_out(alloc, facts, ids, other)?)?;
    }
    Ok(out)
}
