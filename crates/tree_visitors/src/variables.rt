//! The variables of the patterns of a tree, by a walk.

ghost use Rattle.std.specs.Prelude.{◌≡◌, IfOk, Option};
ghost use Rattle.query_meaning.specs.declared.expression.TruthExpr.{TruthExpr};
ghost use Rattle.query_meaning.specs.declared.tree.Tree.{Tree, out-Tree};
ghost use Rattle.query_meaning.specs.declared.tree.Tree.TheOpen as o;
ghost use Rattle.sql_alias_meaning.specs.Each.{Keeps};
ghost use Rattle.query_tree_fold.specs.Trees.{AnyTree, of_tree};
ghost use Rattle.tree_visitors.specs.TreeVariables.{AreVariables};

use query_meaning::{Pattern, Tree};
use query_tree_fold::TreeFold;
use sparql_certain::variables;
use sparql_variables::VarSet;
use sqlite_items::Items;
use std::alloc::{AllocError, Global};

/// Finds the variables of a tree's patterns; those of expressions alone aren't among them.
#[derive(Drop)]
pub struct Variables;

impl TreeFold<Items<Pattern>> for Variables {
    type Out = VarSet;

    ghost fits = { λ v t. AnyTree t };

    ghost stands = { λ v m. AreVariables m };

    ghost part_fits = { λ v n a h c. tt };

    #[tactic(auto, using(crate::proofs::TreeSets::variables_laws))]
    fn leaf(&mut self, _alloc: Global, node: &Tree<Items<Pattern>>) -> Result<VarSet, AllocError> {
        let Tree::Leaf(patterns) = node else {
            unreachable!()
        };
        Ok(variables(patterns.as_slice()))
    }

    #[tactic(auto, using(crate::proofs::TreeSets::variables_laws))]
    fn join(
        &mut self,
        _alloc: Global,
        _node: &Tree<Items<Pattern>>,
        left: VarSet,
        right: VarSet,
    ) -> Result<VarSet, AllocError> {
        Ok(left.either(&right))
    }

    #[tactic(auto, using(crate::proofs::TreeSets::variables_laws))]
    fn left_join(
        &mut self,
        _alloc: Global,
        _node: &Tree<Items<Pattern>>,
        left: VarSet,
        right: VarSet,
    ) -> Result<VarSet, AllocError> {
        Ok(left.either(&right))
    }

    #[tactic(auto, using(crate::proofs::TreeSets::variables_laws))]
    fn union_of(
        &mut self,
        _alloc: Global,
        _node: &Tree<Items<Pattern>>,
        left: VarSet,
        right: VarSet,
    ) -> Result<VarSet, AllocError> {
        Ok(left.either(&right))
    }

    #[tactic(auto, using(crate::proofs::TreeSets::variables_laws))]
    fn filter(
        &mut self,
        _alloc: Global,
        _node: &Tree<Items<Pattern>>,
        inner: VarSet,
    ) -> Result<VarSet, AllocError> {
        Ok(inner)
    }
}
