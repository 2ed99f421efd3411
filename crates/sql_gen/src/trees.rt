//! The visitor of a plan's tree that makes its out.

ghost use Rattle.std.specs.Prelude.{◌≡◌, IfOk, Option};
ghost use Rattle.query_meaning.specs.declared.expression.TruthExpr.{TruthExpr};
ghost use Rattle.query_meaning.specs.declared.tree.Tree.{Tree, out-Tree};
ghost use Rattle.query_meaning.specs.declared.tree.Tree.TheOpen as o;
ghost use Rattle.sql_alias_meaning.specs.Each.{Keeps};
ghost use Rattle.query_tree_fold.specs.Trees.{AnyTree, of_tree};
ghost use Rattle.sql_gen.specs.TreeOuts.{IsOut};

use crate::leaves::leaf_out;
use filter_sql::filter_sql;
use pred_columns::{LayoutFacts, QueryIds};
use query_meaning::{Tree, TruthExpr};
use query_plan_meaning::Star;
use query_tree_fold::TreeFold;
use sql_gen_filter_values::condition_variables;
use sql_gen_outs::{Out, conditional, filtered, joined, optional, united};
use sqlite_items::Items;
use std::alloc::{AllocError, Global};

/// Makes the out of a plan's tree over tables with these columns, spilled predicates and ids.
#[derive(Drop)]
pub(crate) struct Compiler<'a> {
    pub(crate) facts: &'a LayoutFacts,
    pub(crate) ids: &'a QueryIds,
}

impl<'a> TreeFold<Items<Star>> for Compiler<'a> {
    type Out = Out;

    ghost fits = { λ v t. AnyTree t };

    ghost stands = { λ v m. IsOut v.facts.now v.ids.now m };

    ghost part_fits = { λ v n a h c. tt };

    #[tactic(auto, using(crate::proofs::TreeOuts::out_laws))]
    fn leaf(&mut self, alloc: Global, node: &Tree<Items<Star>>) -> Result<Out, AllocError> {
        let Tree::Leaf(stars) = node else {
            unreachable!()
        };
        leaf_out(alloc, self.facts, self.ids, stars.as_slice())
    }

    #[tactic(auto, using(crate::proofs::TreeOuts::out_laws))]
    fn join(
        &mut self,
        alloc: Global,
        _node: &Tree<Items<Star>>,
        left: Out,
        right: Out,
    ) -> Result<Out, AllocError> {
        joined(alloc, left, right)
    }

    #[tactic(auto, using(crate::proofs::TreeOuts::out_laws))]
    fn left_join(
        &mut self,
        alloc: Global,
        node: &Tree<Items<Star>>,
        left: Out,
        right: Out,
    ) -> Result<Out, AllocError> {
        let Tree::LeftJoin(_, _, condition) = node else {
            unreachable!()
        };
        match condition {
            None => optional(alloc, left, right),
            Some(condition) => {
                let terms = Items::from_vec(condition_variables(alloc, condition)?);
                let sql = filter_sql(alloc, condition)?;
                conditional(alloc, left, right, terms, sql)
            }
        }
    }

    #[tactic(auto, using(crate::proofs::TreeOuts::out_laws))]
    fn union_of(
        &mut self,
        alloc: Global,
        _node: &Tree<Items<Star>>,
        left: Out,
        right: Out,
    ) -> Result<Out, AllocError> {
        united(alloc, left, right)
    }

    #[tactic(auto, using(crate::proofs::TreeOuts::out_laws))]
    fn filter(
        &mut self,
        alloc: Global,
        node: &Tree<Items<Star>>,
        inner: Out,
    ) -> Result<Out, AllocError> {
        let Tree::Filter(condition, _) = node else {
            unreachable!()
        };
        let terms = Items::from_vec(condition_variables(alloc, condition)?);
        let sql = filter_sql(alloc, condition)?;
        filtered(alloc, inner, terms, sql)
    }
}
