//! What a visitor of truth expressions offers to the walk.

ghost use Rattle.std.specs.Prelude.{◌≡◌, ℕ, List, IfOk, Contains};
ghost use Rattle.query_meaning.specs.declared.expression.CompareOp.{CompareOp};
ghost use Rattle.query_meaning.specs.declared.expression.TermTest.{TermTest};
ghost use Rattle.query_meaning.specs.declared.expression.ValueExpr.{ValueExpr};
ghost use Rattle.query_meaning.specs.declared.expression.TruthExpr.{TruthExpr, out-TruthExpr};
ghost use Rattle.query_meaning.specs.declared.expression.TruthExpr.TheOpen as o;
ghost use Rattle.sql_alias_meaning.specs.Each.{Each, Keeps};
ghost use Rattle.query_expr_fold.specs.Parts.{parts};

use query_meaning::TruthExpr;
use std::alloc::{AllocError, Global};

/// A visitor of truth expressions, from the leaves up. Each method is given a node that fits and what the visitor made
/// of the truth expressions right inside it, in their order, and makes what stands for the node. Value expressions are
/// parts of their node. What fitted and stood before a call still does after it. A method refuses for want of memory alone.
pub trait ExprFold {
    /// What is made of an expression.
    type Out: Drop;

    /// The nodes that the walk may be given.
    ghost fits: { Self → TruthExpr → Type 0 };

    /// What is made of a node, and the node that it stands for.
    ghost stands: { Self → (Self.Out × TruthExpr) → Type 0 };

    /// A value's effective boolean value.
    fn value(&mut self, alloc: Global, node: &TruthExpr) -> Result<Self::Out, AllocError>
        requires fit { fits self.old node.now }
        requires shape { ((a : ValueExpr) × (out-TruthExpr node.now ≡ o.Value a)) }
        ensures kept { Keeps (fits self.old) (fits self.new) (stands self.old) (stands self.new) }
        ensures out { IfOk result (λ x. stands self.old (x, node.now)) };

    /// Whether a variable is bound.
    fn bound(&mut self, alloc: Global, node: &TruthExpr) -> Result<Self::Out, AllocError>
        requires fit { fits self.old node.now }
        requires shape { ((v : ℕ) × (out-TruthExpr node.now ≡ o.Bound v)) }
        ensures kept { Keeps (fits self.old) (fits self.new) (stands self.old) (stands self.new) }
        ensures out { IfOk result (λ x. stands self.old (x, node.now)) };

    /// A comparison of two values.
    fn compare(&mut self, alloc: Global, node: &TruthExpr) -> Result<Self::Out, AllocError>
        requires fit { fits self.old node.now }
        requires shape { ((c : CompareOp) × (a : ValueExpr) × (b : ValueExpr) × (out-TruthExpr node.now ≡ o.Compare c a b)) }
        ensures kept { Keeps (fits self.old) (fits self.new) (stands self.old) (stands self.new) }
        ensures out { IfOk result (λ x. stands self.old (x, node.now)) };

    /// Whether a value is one of others.
    fn one_of(&mut self, alloc: Global, node: &TruthExpr) -> Result<Self::Out, AllocError>
        requires fit { fits self.old node.now }
        requires shape { ((a : ValueExpr) × (bs : List ValueExpr) × (out-TruthExpr node.now ≡ o.OneOf a bs)) }
        ensures kept { Keeps (fits self.old) (fits self.new) (stands self.old) (stands self.new) }
        ensures out { IfOk result (λ x. stands self.old (x, node.now)) };

    /// Whether two values are the same term.
    fn same_term(&mut self, alloc: Global, node: &TruthExpr) -> Result<Self::Out, AllocError>
        requires fit { fits self.old node.now }
        requires shape { ((a : ValueExpr) × (b : ValueExpr) × (out-TruthExpr node.now ≡ o.SameTerm a b)) }
        ensures kept { Keeps (fits self.old) (fits self.new) (stands self.old) (stands self.new) }
        ensures out { IfOk result (λ x. stands self.old (x, node.now)) };

    /// Whether a value is of a kind.
    fn is_kind(&mut self, alloc: Global, node: &TruthExpr) -> Result<Self::Out, AllocError>
        requires fit { fits self.old node.now }
        requires shape { ((t : TermTest) × (a : ValueExpr) × (out-TruthExpr node.now ≡ o.Is t a)) }
        ensures kept { Keeps (fits self.old) (fits self.new) (stands self.old) (stands self.new) }
        ensures out { IfOk result (λ x. stands self.old (x, node.now)) };

    /// The negation of a part.
    fn not(
        &mut self,
        alloc: Global,
        node: &TruthExpr,
        part: Self::Out,
    ) -> Result<Self::Out, AllocError>
        requires fit { fits self.old node.now }
        requires shape { ((e : TruthExpr) × (out-TruthExpr node.now ≡ o.Not e) × stands self.old (part, e)) }
        ensures kept { Keeps (fits self.old) (fits self.new) (stands self.old) (stands self.new) }
        ensures out { IfOk result (λ x. stands self.old (x, node.now)) };

    /// All of the parts.
    fn all(
        &mut self,
        alloc: Global,
        node: &TruthExpr,
        parts: Vec<Self::Out>,
    ) -> Result<Self::Out, AllocError>
        requires fit { fits self.old node.now }
        requires shape { ((es : List TruthExpr) × (out-TruthExpr node.now ≡ o.All es) × Each (λ x e. stands self.old (x, e)) parts.items es) }
        ensures kept { Keeps (fits self.old) (fits self.new) (stands self.old) (stands self.new) }
        ensures out { IfOk result (λ x. stands self.old (x, node.now)) };

    /// Any of the parts.
    fn any(
        &mut self,
        alloc: Global,
        node: &TruthExpr,
        parts: Vec<Self::Out>,
    ) -> Result<Self::Out, AllocError>
        requires fit { fits self.old node.now }
        requires shape { ((es : List TruthExpr) × (out-TruthExpr node.now ≡ o.Any es) × Each (λ x e. stands self.old (x, e)) parts.items es) }
        ensures kept { Keeps (fits self.old) (fits self.new) (stands self.old) (stands self.new) }
        ensures out { IfOk result (λ x. stands self.old (x, node.now)) };

    /// The parts of a node that fits fit.
    ghost part_fits: { (v : Self) (n e : TruthExpr) → fits v n → Contains (parts n) e → fits v e };
}
