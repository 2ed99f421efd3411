//! What a visitor of trees offers to the walk.

use query_meaning::Tree;
use std::alloc::{AllocError, Global};

/// A visitor of the nodes of a tree, from the leaves up. Each method is given a node that fits and what the visitor made of the
/// node's parts, in their order, and makes what stands for the node. What fitted and stood before a call still does after it. A
/// method refuses for want of memory alone.
pub trait TreeFold<L> {
    ghost use Rattle.std.specs.Prelude.{◌≡◌, IfOk, Contains, Option};
    ghost use Rattle.query_meaning.specs.declared.expression.TruthExpr.{TruthExpr};
    ghost use Rattle.query_meaning.specs.declared.tree.Tree.{Tree, out-Tree};
    ghost use Rattle.query_meaning.specs.declared.tree.Tree.TheOpen as o;
    ghost use Rattle.sql_alias_meaning.specs.Each.{Keeps};
    ghost use Rattle.query_tree_fold.specs.Trees.{Made, of_tree, parts};

    /// What is made of a node.
    type Out: Drop;

    /// The nodes that the walk may be given.
    ghost fits: { Self → Tree L → Type 0 };

    /// What is made of a node, and the node that it stands for.
    ghost stands: { Self → Made Self.Out L → Type 0 };

    /// A leaf.
    fn leaf(&mut self, alloc: Global, node: &Tree<L>) -> Result<Self::Out, AllocError>
        requires fit { fits self.old node.now }
        requires shape { ((l : L) × (out-Tree L node.now ≡ o.Leaf l)) }
        ensures kept { Keeps (fits self.old) (fits self.new) (stands self.old) (stands self.new) }
        ensures out { IfOk result (λ x. stands self.old (of_tree x node.now)) };

    /// Two parts that are joined.
    fn join(
        &mut self,
        alloc: Global,
        node: &Tree<L>,
        left: Self::Out,
        right: Self::Out,
    ) -> Result<Self::Out, AllocError>
        requires fit { fits self.old node.now }
        requires shape { ((a : Tree L) × (b : Tree L) × (out-Tree L node.now ≡ o.Join a b) × stands self.old (of_tree left a) × stands self.old (of_tree right b)) }
        ensures kept { Keeps (fits self.old) (fits self.new) (stands self.old) (stands self.new) }
        ensures out { IfOk result (λ x. stands self.old (of_tree x node.now)) };

    /// An optional part, which may have a condition.
    fn left_join(
        &mut self,
        alloc: Global,
        node: &Tree<L>,
        left: Self::Out,
        right: Self::Out,
    ) -> Result<Self::Out, AllocError>
        requires fit { fits self.old node.now }
        requires shape { ((a : Tree L) × (b : Tree L) × (c : Option TruthExpr) × (out-Tree L node.now ≡ o.LeftJoin a b c) × stands self.old (of_tree left a) × stands self.old (of_tree right b)) }
        ensures kept { Keeps (fits self.old) (fits self.new) (stands self.old) (stands self.new) }
        ensures out { IfOk result (λ x. stands self.old (of_tree x node.now)) };

    /// Two parts, one or the other.
    fn union_of(
        &mut self,
        alloc: Global,
        node: &Tree<L>,
        left: Self::Out,
        right: Self::Out,
    ) -> Result<Self::Out, AllocError>
        requires fit { fits self.old node.now }
        requires shape { ((a : Tree L) × (b : Tree L) × (out-Tree L node.now ≡ o.Union a b) × stands self.old (of_tree left a) × stands self.old (of_tree right b)) }
        ensures kept { Keeps (fits self.old) (fits self.new) (stands self.old) (stands self.new) }
        ensures out { IfOk result (λ x. stands self.old (of_tree x node.now)) };

    /// A part under a condition.
    fn filter(
        &mut self,
        alloc: Global,
        node: &Tree<L>,
        inner: Self::Out,
    ) -> Result<Self::Out, AllocError>
        requires fit { fits self.old node.now }
        requires shape { ((c : TruthExpr) × (a : Tree L) × (out-Tree L node.now ≡ o.Filter c a) × stands self.old (of_tree inner a)) }
        ensures kept { Keeps (fits self.old) (fits self.new) (stands self.old) (stands self.new) }
        ensures out { IfOk result (λ x. stands self.old (of_tree x node.now)) };

    /// The parts of a node that fits fit.
    ghost part_fits: { (v : Self) (n a : Tree L) → fits v n → Contains (parts n) a → fits v a };
}
