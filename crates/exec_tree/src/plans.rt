//! Plans of queries.

ghost use Rattle.std.specs.Prelude.{◌≡◌, ◌<◌, true, IfOk};
ghost use Rattle.query_plan_meaning.specs.Plans.{every_leaf, ComesFrom};
ghost use Rattle.query_flow_meaning.specs.Planned.{are_numbered_apart, planned};

use crate::trees::PlanTree;
use pred_columns::Counts;
use query_meaning::Query;
use query_plan_meaning::Plan;
use query_tree_fold::fold_tree;
use sparql_copies::{copy_modifiers, copy_names};
use std::alloc::{AllocError, Global};

/// The plan of a query: its names and modifiers, and its tree with one star of one required arm for each pattern, in the order of
/// the flow of the pattern's leaf. It comes from the query, where no two patterns of a leaf have one number.
///
/// # Errors
///
/// Want of memory.
pub fn plan_query(alloc: Global, q: &Query, counts: &Counts) -> Result<Plan, AllocError>
    requires { counts.now.triples < 0xffffffffffffffff }
    ensures planned { IfOk result (λ plan. plan ≡ planned counts.now q.now) }
    ensures comes { IfOk result (λ plan. every_leaf are_numbered_apart q.now.tree ≡ true → ComesFrom q.now plan) }
{
    let tree = fold_tree(alloc, &mut PlanTree { counts }, &q.tree)?;
    let names = copy_names(alloc, q.names.as_slice())?;
    let modifiers = copy_modifiers(alloc, &q.modifiers)?;
    Ok(Plan {
        names,
        tree: tree.into_inner(),
        modifiers,
    })
}
