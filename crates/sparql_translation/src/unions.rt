//! Groups with UNION between them, their elements being taken.

ghost use Rattle.std.specs.Prelude.{◌≡◌, IfOk, OnOk};
ghost use Rattle.sparql_meaning.specs.Translation.{take_part, unions};
ghost use Rattle.sparql_translation.specs.Unions.{behind, take_tree, tree_of};

use query_meaning::{Pattern, Tree};
use sparql_meaning::Gathered;
use sparql_trees::{boxed_whole, take_union, union};
use sqlite_items::{Boxed, Items};
use std::alloc::{AllocError, Global};

// One more group behind those that stand before it.
fn behind(
    alloc: Global,
    before: Option<Boxed<Tree<Items<Pattern>>>>,
    group: Gathered,
) -> Result<Boxed<Tree<Items<Pattern>>>, AllocError>
    ensures { IfOk result (λ t. t ≡ behind before group) }
{
    let Some(before) = before else {
        return boxed_whole(alloc, group);
    };
    let next = boxed_whole(alloc, group)?;
    union(alloc, before, next)
}

// Groups nest to the left.
#[tactic(auto, using(crate::specs::Unions::tree_of_more))]
fn tree_of(
    alloc: Global,
    groups: Vec<Gathered>,
) -> Result<Option<Boxed<Tree<Items<Pattern>>>>, AllocError>
    ensures { IfOk result (λ t. t ≡ tree_of groups.items) }
{
    let mut tree = None;
    'groups: for group in groups {
        tree = Some(behind(alloc, tree, group)?);
    }
    Ok(tree)
}

fn take_tree(
    alloc: Global,
    before: &mut Gathered,
    tree: Option<Boxed<Tree<Items<Pattern>>>>,
) -> Result<(), AllocError>
    ensures { OnOk result (before.new ≡ take_tree before.old tree) }
{
    match tree {
        None => Ok(()),
        Some(tree) => take_union(alloc, before, tree.into_inner()),
    }
}

/// What groups with UNION between them make of what was gathered before them.
#[tactic(auto, using(crate::specs::Unions::tree_taken))]
pub(crate) fn take_groups(
    alloc: Global,
    before: &mut Gathered,
    groups: Vec<Gathered>,
) -> Result<(), AllocError>
    ensures { OnOk result (before.new ≡ take_part before.old (unions groups.items)) }
{
    let tree = tree_of(alloc, groups)?;
    take_tree(alloc, before, tree)
}
