//! What a visitor of scripts offers to the walk.

ghost use Rattle.std.specs.Prelude.{◌≡◌, ℕ, ℤ, Bool, List, IfOk, Contains, Some};
ghost use Rattle.table_meaning.specs.declared.kind.Kind.{Kind};
ghost use Rattle.sql_meaning.specs.declared.expression.SqlExpr.{SqlExpr, out-SqlExpr};
ghost use Rattle.sql_meaning.specs.declared.expression.SqlExpr.TheOpen as o;
ghost use Rattle.sql_meaning.specs.declared.expression.Branch.{Branch};
ghost use Rattle.sql_meaning.specs.declared.script.Core.{Core};
ghost use Rattle.sql_meaning.specs.declared.script.Item.{Item};
ghost use Rattle.sql_meaning.specs.declared.script.JoinTo.{JoinTo};
ghost use Rattle.sql_meaning.specs.declared.script.SqlKey.{SqlKey};
ghost use Rattle.sql_meaning.specs.declared.script.Step.{Step};
ghost use Rattle.sql_meaning.specs.declared.script.Body.{Body};
ghost use Rattle.sql_meaning.specs.declared.script.Script.{Script};
ghost use Rattle.sql_alias_meaning.specs.Each.{Each, EachOption, Keeps};
ghost use Rattle.sql_alias_meaning.specs.Nodes.{Node, an_expr, a_core, a_body, a_script, Made, of_expr, of_core, of_body, of_script, parts, branches};

use sql_meaning::{Body, Core, Script, SqlExpr};
use std::alloc::{AllocError, Global};

/// A visitor of the nodes of a script, from the leaves up. Each method is given a node that fits and what the visitor
/// made of the node's parts, in their order, and makes what stands for the node. What fitted and stood before a call
/// still does after it. A method refuses for want of memory alone.
pub trait SqlFold {
    /// What is made of an expression.
    type ExprOut: Drop;
    /// What is made of a SELECT.
    type CoreOut: Drop;
    /// What is made of a body.
    type BodyOut: Drop;
    /// What is made of a script.
    type Out: Drop;

    /// The nodes that the walk may be given.
    ghost fits: { Self → Node → Type 0 };

    /// What is made of a node, and the node that it stands for.
    ghost stands: { Self → Made Self.ExprOut Self.CoreOut Self.BodyOut Self.Out → Type 0 };

    /// A column of a source.
    fn name(&mut self, alloc: Global, node: &SqlExpr) -> Result<Self::ExprOut, AllocError>
        requires fit { fits self.old (an_expr node.now) }
        requires shape { ((a : List ℕ) × (c : List ℕ) × (out-SqlExpr node.now ≡ o.Name a c)) }
        ensures kept { Keeps (fits self.old) (fits self.new) (stands self.old) (stands self.new) }
        ensures out { IfOk result (λ x. stands self.old (of_expr x node.now)) };

    /// An int.
    fn int(&mut self, alloc: Global, node: &SqlExpr) -> Result<Self::ExprOut, AllocError>
        requires fit { fits self.old (an_expr node.now) }
        requires shape { ((n : ℤ) × (out-SqlExpr node.now ≡ o.Int n)) }
        ensures kept { Keeps (fits self.old) (fits self.new) (stands self.old) (stands self.new) }
        ensures out { IfOk result (λ x. stands self.old (of_expr x node.now)) };

    /// A text.
    fn text(&mut self, alloc: Global, node: &SqlExpr) -> Result<Self::ExprOut, AllocError>
        requires fit { fits self.old (an_expr node.now) }
        requires shape { ((t : List ℕ) × (out-SqlExpr node.now ≡ o.Text t)) }
        ensures kept { Keeps (fits self.old) (fits self.new) (stands self.old) (stands self.new) }
        ensures out { IfOk result (λ x. stands self.old (of_expr x node.now)) };

    /// A truth.
    fn truth(&mut self, alloc: Global, node: &SqlExpr) -> Result<Self::ExprOut, AllocError>
        requires fit { fits self.old (an_expr node.now) }
        requires shape { ((b : Bool) × (out-SqlExpr node.now ≡ o.Truth b)) }
        ensures kept { Keeps (fits self.old) (fits self.new) (stands self.old) (stands self.new) }
        ensures out { IfOk result (λ x. stands self.old (of_expr x node.now)) };

    /// A null of a kind.
    fn null(&mut self, alloc: Global, node: &SqlExpr) -> Result<Self::ExprOut, AllocError>
        requires fit { fits self.old (an_expr node.now) }
        requires shape { ((k : Kind) × (out-SqlExpr node.now ≡ o.Null k)) }
        ensures kept { Keeps (fits self.old) (fits self.new) (stands self.old) (stands self.new) }
        ensures out { IfOk result (λ x. stands self.old (of_expr x node.now)) };

    /// `=` of two parts.
    fn equal(
        &mut self,
        alloc: Global,
        node: &SqlExpr,
        left: Self::ExprOut,
        right: Self::ExprOut,
    ) -> Result<Self::ExprOut, AllocError>
        requires fit { fits self.old (an_expr node.now) }
        requires shape { ((a : SqlExpr) × (b : SqlExpr) × (out-SqlExpr node.now ≡ o.Equal a b) × stands self.old (of_expr left a) × stands self.old (of_expr right b)) }
        ensures kept { Keeps (fits self.old) (fits self.new) (stands self.old) (stands self.new) }
        ensures out { IfOk result (λ x. stands self.old (of_expr x node.now)) };

    /// `<` of two parts.
    fn less(
        &mut self,
        alloc: Global,
        node: &SqlExpr,
        left: Self::ExprOut,
        right: Self::ExprOut,
    ) -> Result<Self::ExprOut, AllocError>
        requires fit { fits self.old (an_expr node.now) }
        requires shape { ((a : SqlExpr) × (b : SqlExpr) × (out-SqlExpr node.now ≡ o.Less a b) × stands self.old (of_expr left a) × stands self.old (of_expr right b)) }
        ensures kept { Keeps (fits self.old) (fits self.new) (stands self.old) (stands self.new) }
        ensures out { IfOk result (λ x. stands self.old (of_expr x node.now)) };

    /// AND of parts.
    fn all(
        &mut self,
        alloc: Global,
        node: &SqlExpr,
        parts: Vec<Self::ExprOut>,
    ) -> Result<Self::ExprOut, AllocError>
        requires fit { fits self.old (an_expr node.now) }
        requires shape { ((es : List SqlExpr) × (out-SqlExpr node.now ≡ o.All es) × Each (λ x e. stands self.old (of_expr x e)) parts.items es) }
        ensures kept { Keeps (fits self.old) (fits self.new) (stands self.old) (stands self.new) }
        ensures out { IfOk result (λ x. stands self.old (of_expr x node.now)) };

    /// OR of parts.
    fn any(
        &mut self,
        alloc: Global,
        node: &SqlExpr,
        parts: Vec<Self::ExprOut>,
    ) -> Result<Self::ExprOut, AllocError>
        requires fit { fits self.old (an_expr node.now) }
        requires shape { ((es : List SqlExpr) × (out-SqlExpr node.now ≡ o.Any es) × Each (λ x e. stands self.old (of_expr x e)) parts.items es) }
        ensures kept { Keeps (fits self.old) (fits self.new) (stands self.old) (stands self.new) }
        ensures out { IfOk result (λ x. stands self.old (of_expr x node.now)) };

    /// NOT of a part.
    fn not(
        &mut self,
        alloc: Global,
        node: &SqlExpr,
        part: Self::ExprOut,
    ) -> Result<Self::ExprOut, AllocError>
        requires fit { fits self.old (an_expr node.now) }
        requires shape { ((e : SqlExpr) × (out-SqlExpr node.now ≡ o.Not e) × stands self.old (of_expr part e)) }
        ensures kept { Keeps (fits self.old) (fits self.new) (stands self.old) (stands self.new) }
        ensures out { IfOk result (λ x. stands self.old (of_expr x node.now)) };

    /// IS NULL of a part.
    fn is_null(
        &mut self,
        alloc: Global,
        node: &SqlExpr,
        part: Self::ExprOut,
    ) -> Result<Self::ExprOut, AllocError>
        requires fit { fits self.old (an_expr node.now) }
        requires shape { ((e : SqlExpr) × (out-SqlExpr node.now ≡ o.IsNull e) × stands self.old (of_expr part e)) }
        ensures kept { Keeps (fits self.old) (fits self.new) (stands self.old) (stands self.new) }
        ensures out { IfOk result (λ x. stands self.old (of_expr x node.now)) };

    /// CASE: the outs of its tests, of their answers, and of the value where no test is true.
    fn case(
        &mut self,
        alloc: Global,
        node: &SqlExpr,
        tests: Vec<Self::ExprOut>,
        answers: Vec<Self::ExprOut>,
        last: Self::ExprOut,
    ) -> Result<Self::ExprOut, AllocError>
        requires fit { fits self.old (an_expr node.now) }
        requires shape { ((bs : List Branch) × (e : SqlExpr) × (out-SqlExpr node.now ≡ o.Case bs e) × Each (λ x (b : Branch). stands self.old (of_expr x b.test)) tests.items bs × Each (λ x (b : Branch). stands self.old (of_expr x b.value)) answers.items bs × stands self.old (of_expr last e)) }
        ensures kept { Keeps (fits self.old) (fits self.new) (stands self.old) (stands self.new) }
        ensures out { IfOk result (λ x. stands self.old (of_expr x node.now)) };

    /// COALESCE of parts.
    fn first(
        &mut self,
        alloc: Global,
        node: &SqlExpr,
        parts: Vec<Self::ExprOut>,
    ) -> Result<Self::ExprOut, AllocError>
        requires fit { fits self.old (an_expr node.now) }
        requires shape { ((es : List SqlExpr) × (out-SqlExpr node.now ≡ o.First es) × Each (λ x e. stands self.old (of_expr x e)) parts.items es) }
        ensures kept { Keeps (fits self.old) (fits self.new) (stands self.old) (stands self.new) }
        ensures out { IfOk result (λ x. stands self.old (of_expr x node.now)) };

    /// A SELECT: the outs of its items, of the conditions of its joins, of WHERE and of its keys.
    fn core(
        &mut self,
        alloc: Global,
        node: &Core,
        items: Vec<Self::ExprOut>,
        joins: Vec<Self::ExprOut>,
        condition: Option<Self::ExprOut>,
        keys: Vec<Self::ExprOut>,
    ) -> Result<Self::CoreOut, AllocError>
        requires fit { fits self.old (a_core node.now) }
        requires items { Each (λ x (i : Item). stands self.old (of_expr x i.expr)) items.items node.now.items }
        requires joins { Each (λ x (j : JoinTo). stands self.old (of_expr x j.on)) joins.items node.now.joins }
        requires condition { EachOption (λ x e. stands self.old (of_expr x e)) condition node.now.condition }
        requires keys { Each (λ x (k : SqlKey). stands self.old (of_expr x k.expr)) keys.items node.now.keys }
        ensures kept { Keeps (fits self.old) (fits self.new) (stands self.old) (stands self.new) }
        ensures out { IfOk result (λ x. stands self.old (of_core x node.now)) };

    /// The SELECTs of a UNION ALL, or one alone.
    fn body(
        &mut self,
        alloc: Global,
        node: &Body,
        cores: Vec<Self::CoreOut>,
    ) -> Result<Self::BodyOut, AllocError>
        requires fit { fits self.old (a_body node.now) }
        requires cores { Each (λ x (c : Core). stands self.old (of_core x c)) cores.items node.now.cores }
        ensures kept { Keeps (fits self.old) (fits self.new) (stands self.old) (stands self.new) }
        ensures out { IfOk result (λ x. stands self.old (of_body x node.now)) };

    /// A whole script: the outs of its steps' bodies, and of the last one.
    fn script(
        &mut self,
        alloc: Global,
        node: &Script,
        steps: Vec<Self::BodyOut>,
        last: Self::BodyOut,
    ) -> Result<Self::Out, AllocError>
        requires fit { fits self.old (a_script node.now) }
        requires steps { Each (λ x (s : Step). stands self.old (of_body x s.body)) steps.items node.now.steps }
        requires last { stands self.old (of_body last node.now.last) }
        ensures kept { Keeps (fits self.old) (fits self.new) (stands self.old) (stands self.new) }
        ensures out { IfOk result (λ x. stands self.old (of_script x node.now)) };

    /// The parts of a node that fits fit: those of an expression,
    ghost part_fits: { (v : Self) (n e : SqlExpr) → fits v (an_expr n) → Contains (parts n) e → fits v (an_expr e) };

    /// the tests and the values of the branches of a CASE,
    ghost test_fits: { (v : Self) (n : SqlExpr) (b : Branch) → fits v (an_expr n) → Contains (branches n) b → fits v (an_expr b.test) };

    ghost answer_fits: { (v : Self) (n : SqlExpr) (b : Branch) → fits v (an_expr n) → Contains (branches n) b → fits v (an_expr b.value) };

    /// the items, the conditions and the keys of a SELECT,
    ghost item_fits: { (v : Self) (c : Core) (i : Item) → fits v (a_core c) → Contains c.items i → fits v (an_expr i.expr) };

    ghost join_fits: { (v : Self) (c : Core) (j : JoinTo) → fits v (a_core c) → Contains c.joins j → fits v (an_expr j.on) };

    ghost condition_fits: { (v : Self) (c : Core) (e : SqlExpr) → fits v (a_core c) → c.condition ≡ Some e → fits v (an_expr e) };

    ghost key_fits: { (v : Self) (c : Core) (k : SqlKey) → fits v (a_core c) → Contains c.keys k → fits v (an_expr k.expr) };

    /// the SELECTs of a body,
    ghost core_fits: { (v : Self) (b : Body) (c : Core) → fits v (a_body b) → Contains b.cores c → fits v (a_core c) };

    /// and the bodies of a script.
    ghost step_fits: { (v : Self) (s : Script) (t : Step) → fits v (a_script s) → Contains s.steps t → fits v (a_body t.body) };

    ghost last_fits: { (v : Self) (s : Script) → fits v (a_script s) → fits v (a_body s.last) };
}
