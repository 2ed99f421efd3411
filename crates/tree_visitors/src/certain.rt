//! The variables that every solution of a tree binds, by a walk.

ghost use Rattle.std.specs.Prelude.{◌≡◌, IfOk, Option};
ghost use Rattle.query_meaning.specs.declared.expression.TruthExpr.{TruthExpr};
ghost use Rattle.query_meaning.specs.declared.tree.Tree.{Tree, out-Tree};
ghost use Rattle.query_meaning.specs.declared.tree.Tree.TheOpen as o;
ghost use Rattle.sql_alias_meaning.specs.Each.{Keeps};
ghost use Rattle.query_tree_fold.specs.Trees.{AnyTree, of_tree};
ghost use Rattle.tree_visitors.specs.TreeVariables.{AreCertain};

use query_meaning::Tree;
use query_tree_fold::TreeFold;
use sparql_certain::LeafVars;
use sparql_variables::VarSet;
use std::alloc::{AllocError, Global};

/// Finds variables that every solution of a tree binds, over whichever triples.
#[derive(Drop)]
pub struct Certain;

impl<L: LeafVars> TreeFold<L> for Certain {
    type Out = VarSet;

    ghost fits = { λ v t. AnyTree t };

    ghost stands = { λ v m. AreCertain L.certain L.solutions m };

    ghost part_fits = { λ v n a h c. tt };

    #[tactic(auto, using(crate::proofs::TreeSets::certain_laws))]
    fn leaf(&mut self, _alloc: Global, node: &Tree<L>) -> Result<VarSet, AllocError> {
        let Tree::Leaf(leaf) = node else {
            unreachable!()
        };
        Ok(leaf.leaf_certain())
    }

    #[tactic(auto, using(crate::proofs::TreeSets::certain_laws))]
    fn join(
        &mut self,
        _alloc: Global,
        _node: &Tree<L>,
        left: VarSet,
        right: VarSet,
    ) -> Result<VarSet, AllocError> {
        Ok(left.either(&right))
    }

    #[tactic(auto, using(crate::proofs::TreeSets::certain_laws))]
    fn left_join(
        &mut self,
        _alloc: Global,
        _node: &Tree<L>,
        left: VarSet,
        _right: VarSet,
    ) -> Result<VarSet, AllocError> {
        Ok(left)
    }

    #[tactic(auto, using(crate::proofs::TreeSets::certain_laws))]
    fn union_of(
        &mut self,
        _alloc: Global,
        _node: &Tree<L>,
        left: VarSet,
        right: VarSet,
    ) -> Result<VarSet, AllocError> {
        Ok(left.both(&right))
    }

    #[tactic(auto, using(crate::proofs::TreeSets::certain_laws))]
    fn filter(
        &mut self,
        _alloc: Global,
        _node: &Tree<L>,
        inner: VarSet,
    ) -> Result<VarSet, AllocError> {
        Ok(inner)
    }
}
