//! Merging a plan.

ghost use Rattle.std.specs.Prelude.{◌≡◌, IfOk};
ghost use Rattle.query_merging_meaning.specs.Merging.{merged};

use crate::trees::MergeTree;
use pred_columns::Spilled;
use query_plan_meaning::Plan;
use query_tree_fold::fold_tree;
use sparql_copies::{copy_modifiers, copy_names};
use std::alloc::{AllocError, Global};

/// The merged plan: from the leaves up, plain stars of one leaf on the same entity and side become one, an optional part that is
/// one arm of such a star goes into it, and the two sides of a union that are such stars become one.
///
/// # Errors
///
/// Want of memory.
pub fn merge(alloc: Global, plan: &Plan, spilled: &Spilled) -> Result<Plan, AllocError>
    ensures { IfOk result (λ new. new ≡ merged spilled.now plan.now) }
{
    let tree = fold_tree(alloc, &mut MergeTree { spilled }, &plan.tree)?;
    let names = copy_names(alloc, plan.names.as_slice())?;
    let modifiers = copy_modifiers(alloc, &plan.modifiers)?;
    Ok(Plan {
        names,
        tree: tree.into_inner(),
        modifiers,
    })
}
