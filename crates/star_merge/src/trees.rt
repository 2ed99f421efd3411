//! Merging a tree, by a walk.

ghost use Rattle.std.specs.Prelude.{◌≡◌, IfOk, Option};
ghost use Rattle.std.specs.Option.{option_copied};
ghost use Rattle.query_meaning.specs.declared.expression.TruthExpr.{TruthExpr};
ghost use Rattle.query_meaning.specs.declared.tree.Tree.{Tree, out-Tree};
ghost use Rattle.query_meaning.specs.declared.tree.Tree.TheOpen as o;
ghost use Rattle.sql_alias_meaning.specs.Each.{Keeps};
ghost use Rattle.query_tree_fold.specs.Trees.{AnyTree, of_tree};
ghost use Rattle.query_merging_meaning.specs.Merging.{leaf_of, of_leaves, merged_optional, merged_union};
ghost use Rattle.star_merge.specs.MergedTrees.{IsMergedTree};

use crate::leaves::{merged_leaf, merged_optional, merged_union};
use pred_columns::Spilled;
use query_meaning::Tree;
use query_plan_meaning::Star;
use query_tree_fold::TreeFold;
use sparql_copies::copy_truth;
use sqlite_items::{Boxed, Items};
use std::alloc::{AllocError, Global};

#[tactic(auto, using(crate::proofs::ByKind::leaf_laws))]
fn leaf_of(tree: &Tree<Items<Star>>) -> Option<&Items<Star>>
    ensures { option_copied result ≡ leaf_of tree.now }
{
    match tree {
        Tree::Leaf(stars) => Some(stars),
        Tree::Join(..) => None,
        Tree::LeftJoin(..) => None,
        Tree::Union(..) => None,
        Tree::Filter(..) => None,
    }
}

// The leaf that becomes of a left join without a condition, where one does.
#[tactic(auto, using(crate::proofs::ByKind::of_leaves_laws))]
fn optional_leaf(
    alloc: Global,
    spilled: &Spilled,
    left: &Tree<Items<Star>>,
    right: &Tree<Items<Star>>,
) -> Result<Option<Items<Star>>, AllocError>
    ensures { IfOk result (λ merged. merged ≡ of_leaves (merged_optional spilled.now) left.now right.now) }
{
    let Some(stars) = leaf_of(left) else {
        return Ok(None);
    };
    let Some(part) = leaf_of(right) else {
        return Ok(None);
    };
    merged_optional(alloc, spilled, stars.as_slice(), part.as_slice())
}

// The leaf that becomes of a union, where one does.
#[tactic(auto, using(crate::proofs::ByKind::of_leaves_laws))]
fn union_leaf(
    alloc: Global,
    spilled: &Spilled,
    left: &Tree<Items<Star>>,
    right: &Tree<Items<Star>>,
) -> Result<Option<Items<Star>>, AllocError>
    ensures { IfOk result (λ merged. merged ≡ of_leaves (merged_union spilled.now) left.now right.now) }
{
    let Some(stars) = leaf_of(left) else {
        return Ok(None);
    };
    let Some(others) = leaf_of(right) else {
        return Ok(None);
    };
    merged_union(alloc, spilled, stars.as_slice(), others.as_slice())
}

/// Makes the merged tree of a tree of stars.
#[derive(Drop)]
pub(crate) struct MergeTree<'a> {
    pub(crate) spilled: &'a Spilled,
}

impl<'a> TreeFold<Items<Star>> for MergeTree<'a> {
    type Out = Boxed<Tree<Items<Star>>>;

    ghost fits = { λ v t. AnyTree t };

    ghost stands = { λ v m. IsMergedTree v.spilled.now m };

    ghost part_fits = { λ v n a h c. tt };

    #[tactic(auto, using(crate::proofs::ByKind::kind_laws))]
    fn leaf(
        &mut self,
        alloc: Global,
        node: &Tree<Items<Star>>,
    ) -> Result<Boxed<Tree<Items<Star>>>, AllocError> {
        let Tree::Leaf(stars) = node else {
            unreachable!()
        };
        let merged = merged_leaf(alloc, self.spilled, stars.as_slice())?;
        Boxed::new(alloc, Tree::Leaf(merged))
    }

    #[tactic(auto, using(crate::proofs::ByKind::kind_laws))]
    fn join(
        &mut self,
        alloc: Global,
        _node: &Tree<Items<Star>>,
        left: Boxed<Tree<Items<Star>>>,
        right: Boxed<Tree<Items<Star>>>,
    ) -> Result<Boxed<Tree<Items<Star>>>, AllocError> {
        Boxed::new(alloc, Tree::Join(left, right))
    }

    #[tactic(auto, using(crate::proofs::ByKind::kind_laws))]
    fn left_join(
        &mut self,
        alloc: Global,
        node: &Tree<Items<Star>>,
        left: Boxed<Tree<Items<Star>>>,
        right: Boxed<Tree<Items<Star>>>,
    ) -> Result<Boxed<Tree<Items<Star>>>, AllocError> {
        let Tree::LeftJoin(_, _, condition) = node else {
            unreachable!()
        };
        match condition {
            Some(condition) => {
                let condition = copy_truth(alloc, condition)?;
                Boxed::new(alloc, Tree::LeftJoin(left, right, Some(condition)))
            }
            None => match optional_leaf(alloc, self.spilled, left.get(), right.get())? {
                Some(stars) => Boxed::new(alloc, Tree::Leaf(stars)),
                None => Boxed::new(alloc, Tree::LeftJoin(left, right, None)),
            },
        }
    }

    #[tactic(auto, using(crate::proofs::ByKind::kind_laws))]
    fn union_of(
        &mut self,
        alloc: Global,
        _node: &Tree<Items<Star>>,
        left: Boxed<Tree<Items<Star>>>,
        right: Boxed<Tree<Items<Star>>>,
    ) -> Result<Boxed<Tree<Items<Star>>>, AllocError> {
        match union_leaf(alloc, self.spilled, left.get(), right.get())? {
            Some(stars) => Boxed::new(alloc, Tree::Leaf(stars)),
            None => Boxed::new(alloc, Tree::Union(left, right)),
        }
    }

    #[tactic(auto, using(crate::proofs::ByKind::kind_laws))]
    fn filter(
        &mut self,
        alloc: Global,
        node: &Tree<Items<Star>>,
        inner: Boxed<Tree<Items<Star>>>,
    ) -> Result<Boxed<Tree<Items<Star>>>, AllocError> {
        let Tree::Filter(condition, _) = node else {
            unreachable!()
        };
        let condition = copy_truth(alloc, condition)?;
        Boxed::new(alloc, Tree::Filter(condition, inner))
    }
}
