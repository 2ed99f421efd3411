//! Trees out of their parts.

ghost use Rattle.std.specs.Prelude.{◌≡◌, if◌then◌else◌, IfOk};
ghost use Rattle.query_meaning.specs.declared.tree.Tree.TheVariants as tree;
ghost use Rattle.sparql_meaning.specs.Translation.{is_empty, joined, with_patterns, conjunction, under, bare, whole};

use query_meaning::{Pattern, Tree, TruthExpr};
use sparql_meaning::Gathered;
use sqlite_items::{Boxed, Items};
use std::alloc::{AllocError, Global};

// Whether the tree is the leaf without patterns.
fn is_empty(tree: &Tree<Items<Pattern>>) -> bool
    ensures { result ≡ is_empty tree.now }
{
    match tree {
        Tree::Leaf(patterns) => patterns.is_empty(),
        _ => false,
    }
}

fn join(
    alloc: Global,
    a: Tree<Items<Pattern>>,
    b: Tree<Items<Pattern>>,
) -> Result<Tree<Items<Pattern>>, AllocError>
    ensures { IfOk result (λ x. x ≡ tree.Join a b) }
{
    let left = Boxed::new(alloc, a)?;
    let right = Boxed::new(alloc, b)?;
    Ok(Tree::Join(left, right))
}

// The tree, joined to what stands before it unless that counts for nothing.
fn joined_unless(
    alloc: Global,
    nothing: bool,
    before: Tree<Items<Pattern>>,
    next: Tree<Items<Pattern>>,
) -> Result<Tree<Items<Pattern>>, AllocError>
    ensures { IfOk result (λ x. x ≡ (if nothing then next else tree.Join before next)) }
{
    if nothing {
        return Ok(next);
    }
    let both = join(alloc, before, next)?;
    Ok(both)
}

/// The tree joined to what stands before it.
pub fn joined(
    alloc: Global,
    before: Tree<Items<Pattern>>,
    next: Tree<Items<Pattern>>,
) -> Result<Tree<Items<Pattern>>, AllocError>
    ensures { IfOk result (λ x. x ≡ joined before next) }
{
    let nothing = is_empty(&before);
    let tree = joined_unless(alloc, nothing, before, next)?;
    Ok(tree)
}

pub fn with_patterns(
    alloc: Global,
    before: Tree<Items<Pattern>>,
    patterns: Items<Pattern>,
) -> Result<Tree<Items<Pattern>>, AllocError>
    ensures { IfOk result (λ x. x ≡ with_patterns before patterns) }
{
    if patterns.is_empty() {
        return Ok(before);
    }
    let tree = joined(alloc, before, Tree::Leaf(patterns))?;
    Ok(tree)
}

/// All conditions in order; one stands for itself.
pub fn conjunction(mut conditions: Items<TruthExpr>) -> Option<TruthExpr>
    ensures { result ≡ conjunction conditions }
{
    if conditions.len() < 2 {
        conditions.pop()
    } else {
        Some(TruthExpr::All(conditions))
    }
}

fn under(
    alloc: Global,
    condition: Option<TruthExpr>,
    tree: Tree<Items<Pattern>>,
) -> Result<Tree<Items<Pattern>>, AllocError>
    ensures { IfOk result (λ x. x ≡ under condition tree) }
{
    match condition {
        None => Ok(tree),
        Some(condition) => Ok(Tree::Filter(condition, Boxed::new(alloc, tree)?)),
    }
}

/// A group without its own conditions, and these.
pub fn bare(
    alloc: Global,
    group: Gathered,
) -> Result<(Tree<Items<Pattern>>, Items<TruthExpr>), AllocError>
    ensures tree { IfOk result (λ x. x.0 ≡ bare group) }
    ensures conditions { IfOk result (λ x. x.1 ≡ group.conditions) }
{
    let Gathered {
        tree,
        patterns,
        conditions,
    } = group;
    let tree = with_patterns(alloc, tree, patterns)?;
    Ok((tree, conditions))
}

/// A group with its own conditions over all of it.
pub fn whole(alloc: Global, group: Gathered) -> Result<Tree<Items<Pattern>>, AllocError>
    ensures { IfOk result (λ x. x ≡ whole group) }
{
    let (tree, conditions) = bare(alloc, group)?;
    let tree = under(alloc, conjunction(conditions), tree)?;
    Ok(tree)
}

/// The same, on the heap.
pub fn boxed_whole(
    alloc: Global,
    group: Gathered,
) -> Result<Boxed<Tree<Items<Pattern>>>, AllocError>
    ensures { IfOk result (λ x. x ≡ whole group) }
{
    let tree = whole(alloc, group)?;
    let boxed = Boxed::new(alloc, tree)?;
    Ok(boxed)
}

/// Both groups' solutions; more groups nest to the left.
pub fn union(
    alloc: Global,
    before: Boxed<Tree<Items<Pattern>>>,
    next: Boxed<Tree<Items<Pattern>>>,
) -> Result<Boxed<Tree<Items<Pattern>>>, AllocError>
    ensures { IfOk result (λ x. x ≡ tree.Union before next) }
{
    let tree = Tree::Union(before, next);
    let boxed = Boxed::new(alloc, tree)?;
    Ok(boxed)
}
