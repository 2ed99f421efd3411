//! Plans of trees, by a walk.

ghost use Rattle.std.specs.Prelude.{◌≡◌, ◌<◌, IfOk, Option};
ghost use Rattle.query_meaning.specs.declared.expression.TruthExpr.{TruthExpr};
ghost use Rattle.query_meaning.specs.declared.tree.Tree.{Tree, out-Tree};
ghost use Rattle.query_meaning.specs.declared.tree.Tree.TheOpen as o;
ghost use Rattle.sql_alias_meaning.specs.Each.{Keeps};
ghost use Rattle.query_tree_fold.specs.Trees.{of_tree};
ghost use Rattle.exec_tree.specs.Plans.{IsPlanned};

use crate::stars::plan_leaf;
use pred_columns::Counts;
use query_meaning::{Pattern, Tree, TruthExpr};
use query_plan_meaning::Star;
use query_tree_fold::TreeFold;
use sparql_copies::copy_truth;
use sqlite_items::{Boxed, Items};
use std::alloc::{AllocError, Global};

fn copy_condition(
    alloc: Global,
    condition: &Option<TruthExpr>,
) -> Result<Option<TruthExpr>, AllocError>
    ensures { IfOk result (λ copy. copy ≡ condition.now) }
{
    match condition {
        Some(e) => Ok(Some(copy_truth(alloc, e)?)),
        None => Ok(None),
    }
}

/// Makes the planned tree of a tree of patterns.
#[derive(Drop)]
pub(crate) struct PlanTree<'a> {
    pub(crate) counts: &'a Counts,
}

impl<'a> TreeFold<Items<Pattern>> for PlanTree<'a> {
    type Out = Boxed<Tree<Items<Star>>>;

    ghost fits = { λ v t. v.counts.now.triples < 0xffffffffffffffff };

    ghost stands = { λ v m. IsPlanned v.counts.now m };

    ghost part_fits = { λ v n a h c. h };

    #[tactic(auto, using(crate::proofs::TreePlans::tree_laws))]
    fn leaf(
        &mut self,
        alloc: Global,
        node: &Tree<Items<Pattern>>,
    ) -> Result<Boxed<Tree<Items<Star>>>, AllocError> {
        let Tree::Leaf(patterns) = node else {
            unreachable!()
        };
        let stars = plan_leaf(alloc, patterns.as_slice(), self.counts)?;
        Boxed::new(alloc, Tree::Leaf(stars))
    }

    #[tactic(auto, using(crate::proofs::TreePlans::tree_laws))]
    fn join(
        &mut self,
        alloc: Global,
        _node: &Tree<Items<Pattern>>,
        left: Boxed<Tree<Items<Star>>>,
        right: Boxed<Tree<Items<Star>>>,
    ) -> Result<Boxed<Tree<Items<Star>>>, AllocError> {
        Boxed::new(alloc, Tree::Join(left, right))
    }

    #[tactic(auto, using(crate::proofs::TreePlans::tree_laws))]
    fn left_join(
        &mut self,
        alloc: Global,
        node: &Tree<Items<Pattern>>,
        left: Boxed<Tree<Items<Star>>>,
        right: Boxed<Tree<Items<Star>>>,
    ) -> Result<Boxed<Tree<Items<Star>>>, AllocError> {
        let Tree::LeftJoin(_, _, condition) = node else {
            unreachable!()
        };
        let condition = copy_condition(alloc, condition)?;
        Boxed::new(alloc, Tree::LeftJoin(left, right, condition))
    }

    #[tactic(auto, using(crate::proofs::TreePlans::tree_laws))]
    fn union_of(
        &mut self,
        alloc: Global,
        _node: &Tree<Items<Pattern>>,
        left: Boxed<Tree<Items<Star>>>,
        right: Boxed<Tree<Items<Star>>>,
    ) -> Result<Boxed<Tree<Items<Star>>>, AllocError> {
        Boxed::new(alloc, Tree::Union(left, right))
    }

    #[tactic(auto, using(crate::proofs::TreePlans::tree_laws))]
    fn filter(
        &mut self,
        alloc: Global,
        node: &Tree<Items<Pattern>>,
        inner: Boxed<Tree<Items<Star>>>,
    ) -> Result<Boxed<Tree<Items<Star>>>, AllocError> {
        let Tree::Filter(condition, _) = node else {
            unreachable!()
        };
        let condition = copy_truth(alloc, condition)?;
        Boxed::new(alloc, Tree::Filter(condition, inner))
    }
}
