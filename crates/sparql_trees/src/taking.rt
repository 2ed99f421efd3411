//! What one element makes of what was gathered before it.

ghost use Rattle.std.specs.Prelude.{◌≡◌, [], IfOk, OnOk};
ghost use Rattle.query_meaning.specs.declared.tree.Tree.TheVariants as tree;
ghost use Rattle.sparql_meaning.specs.Translation.{bare, conjunction, gathered, joined, nothing_yet, take_part};
ghost use Rattle.sparql_meaning.specs.Translation as meaning;

use crate::trees::{bare, conjunction, joined, with_patterns};
use query_meaning::{Pattern, Tree, TruthExpr};
use sparql_meaning::Gathered;
use sqlite_items::{Boxed, Items};
use std::alloc::{AllocError, Global};
use std::mem;

/// Before the first element.
pub fn nothing_yet(alloc: Global) -> Gathered
    ensures { result ≡ nothing_yet }
{
    Gathered {
        tree: Tree::Leaf(Items::new(alloc)),
        patterns: Items::new(alloc),
        conditions: Items::new(alloc),
    }
}

/// Patterns go on the leaf that isn't in the tree yet, with or without filters before them.
pub fn take_triples(before: &mut Gathered, more: Items<Pattern>) -> Result<(), AllocError>
    ensures { OnOk result (before.new ≡ take_part before.old (meaning.patterns more)) }
{
    before.patterns.append(more)?;
    Ok(())
}

// The tree of what was gathered, its patterns with it, is taken out.
fn settle(alloc: Global, before: &mut Gathered) -> Result<Tree<Items<Pattern>>, AllocError>
    ensures tree { IfOk result (λ x. x ≡ bare before.old) }
    ensures left { OnOk result (before.new ≡ gathered (tree.Leaf []) [] before.old.conditions) }
{
    let patterns = mem::replace(&mut before.patterns, Items::new(alloc));
    let tree = mem::replace(&mut before.tree, Tree::Leaf(Items::new(alloc)));
    let settled = with_patterns(alloc, tree, patterns)?;
    Ok(settled)
}

fn settle_boxed(
    alloc: Global,
    before: &mut Gathered,
) -> Result<Boxed<Tree<Items<Pattern>>>, AllocError>
    ensures tree { IfOk result (λ x. x ≡ bare before.old) }
    ensures left { OnOk result (before.new ≡ gathered (tree.Leaf []) [] before.old.conditions) }
{
    let settled = settle(alloc, before)?;
    let boxed = Boxed::new(alloc, settled)?;
    Ok(boxed)
}

// Patterns that come later aren't in the tree yet.
fn put_tree(before: &mut Gathered, tree: Tree<Items<Pattern>>)
    ensures { before.new ≡ gathered tree before.old.patterns before.old.conditions }
{
    before.tree = tree;
}

// An optional group without its own conditions, and their conjunction.
fn optional_parts(
    alloc: Global,
    group: Gathered,
) -> Result<(Boxed<Tree<Items<Pattern>>>, Option<TruthExpr>), AllocError>
    ensures tree { IfOk result (λ x. x.0 ≡ bare group) }
    ensures condition { IfOk result (λ x. x.1 ≡ conjunction group.conditions) }
{
    let (tree, conditions) = bare(alloc, group)?;
    let condition = conjunction(conditions);
    let boxed = Boxed::new(alloc, tree)?;
    Ok((boxed, condition))
}

/// An optional group's own conditions stand at its left join.
pub fn take_optional(
    alloc: Global,
    before: &mut Gathered,
    group: Gathered,
) -> Result<(), AllocError>
    ensures { OnOk result (before.new ≡ take_part before.old (meaning.optional group)) }
{
    let (right, condition) = optional_parts(alloc, group)?;
    let left = settle_boxed(alloc, before)?;
    put_tree(before, Tree::LeftJoin(left, right, condition));
    Ok(())
}

/// A tree of groups with UNION between them is joined to what stands before it.
pub fn take_union(
    alloc: Global,
    before: &mut Gathered,
    next: Tree<Items<Pattern>>,
) -> Result<(), AllocError>
    ensures { OnOk result (before.new ≡ gathered (joined (bare before.old) next) [] before.old.conditions) }
{
    let patterns = mem::replace(&mut before.patterns, Items::new(alloc));
    // The next tree waits where the one before it stood.
    let tree = mem::replace(&mut before.tree, next);
    let left = with_patterns(alloc, tree, patterns)?;
    let right = mem::replace(&mut before.tree, Tree::Leaf(Items::new(alloc)));
    let both = joined(alloc, left, right)?;
    put_tree(before, both);
    Ok(())
}

/// A condition applies to the whole group, wherever it stands.
pub fn take_condition(before: &mut Gathered, condition: TruthExpr) -> Result<(), AllocError>
    ensures { OnOk result (before.new ≡ take_part before.old (meaning.condition condition)) }
{
    before.conditions.push(condition)?;
    Ok(())
}
