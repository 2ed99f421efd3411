//! The walk over a tree.

ghost use Rattle.std.specs.Prelude.{◌≡◌, IfOk};
ghost use Rattle.query_meaning.specs.declared.tree.Tree.{Tree};
ghost use Rattle.sql_alias_meaning.specs.Each.{Keeps};
ghost use Rattle.query_tree_fold.specs.Trees.{of_tree};

use crate::visitor::TreeFold;
use query_meaning::Tree;
use std::alloc::{AllocError, Global};

/// What the visitor makes of the whole tree, which stands for it.
///
/// # Errors
///
/// Want of memory.
#[tactic(auto, using(crate::proofs::Kept::fit_later))]
pub fn fold_tree<L, V: TreeFold<L>>(
    alloc: Global,
    v: &mut V,
    tree: &Tree<L>,
) -> Result<V::Out, AllocError>
    requires { V.fits v.old tree.now }
    ensures kept { Keeps (V.fits v.old) (V.fits v.new) (V.stands v.old) (V.stands v.new) }
    ensures out { IfOk result (λ x. V.stands v.old (of_tree x tree.now)) }
{
    match tree {
        Tree::Leaf(_) => v.leaf(alloc, tree),
        Tree::Join(left, right) => {
            let left = fold_tree(alloc, v, left.get())?;
            let right = fold_tree(alloc, v, right.get())?;
            v.join(alloc, tree, left, right)
        }
        Tree::LeftJoin(left, right, _) => {
            let left = fold_tree(alloc, v, left.get())?;
            let right = fold_tree(alloc, v, right.get())?;
            v.left_join(alloc, tree, left, right)
        }
        Tree::Union(left, right) => {
            let left = fold_tree(alloc, v, left.get())?;
            let right = fold_tree(alloc, v, right.get())?;
            v.union_of(alloc, tree, left, right)
        }
        Tree::Filter(_, inner) => {
            let inner = fold_tree(alloc, v, inner.get())?;
            v.filter(alloc, tree, inner)
        }
    }
}
