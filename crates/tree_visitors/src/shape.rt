//! How deep the expressions of a script are, by a walk.

ghost use Rattle.std.specs.Prelude.{◌≡◌, List, IfOk, suc, max};
ghost use Rattle.sql_meaning.specs.Scripts as scripts;
ghost use Rattle.tree_visitors.specs.Shapes.{IsDepth};
ghost use Rattle.sql_meaning.specs.declared.expression.SqlExpr.{SqlExpr, out-SqlExpr};
ghost use Rattle.sql_meaning.specs.declared.expression.SqlExpr.TheOpen as o;
ghost use Rattle.sql_meaning.specs.declared.expression.Branch.{Branch};
ghost use Rattle.sql_meaning.specs.declared.script.Core.{Core};
ghost use Rattle.sql_meaning.specs.declared.script.Item.{Item};
ghost use Rattle.sql_meaning.specs.declared.script.JoinTo.{JoinTo};
ghost use Rattle.sql_meaning.specs.declared.script.SqlKey.{SqlKey};
ghost use Rattle.sql_meaning.specs.declared.script.Step.{Step};
ghost use Rattle.sql_alias_meaning.specs.Each.{Each, EachOption, Keeps};
ghost use Rattle.sql_alias_meaning.specs.Nodes.{an_expr, a_core, a_body, a_script, of_expr, of_core, of_body, of_script};
ghost use Rattle.tree_visitors.specs.AnyNode.{AnyNode};

use sql_fold::SqlFold;
use sql_meaning::{Body, Core, Script, SqlExpr};
use std::alloc::{AllocError, Global};

// One level more, which stops at the last value.
fn deeper(depth: u32) -> u32
    ensures { result ≡ scripts.up_to 32 (suc depth) }
{
    depth.saturating_add(1)
}

fn deepest(depths: &[u32]) -> u32
    ensures { result ≡ scripts.up_to 32 (scripts.largest depths.now) }
{
    let mut deepest = 0;
    for depth in depths {
        deepest = (*depth).max(deepest);
    }
    deepest
}

/// Finds the depth of the deepest expression; the last `u32` stands for all larger depths.
#[derive(Drop)]
pub struct Shape;

impl SqlFold for Shape {
    type ExprOut = u32;

    type CoreOut = u32;

    type BodyOut = u32;

    type Out = u32;

    ghost fits = { λ v n. AnyNode n };

    ghost stands = { λ v m. IsDepth m };

    ghost part_fits = { λ v n e h c. tt };

    ghost test_fits = { λ v n b h c. tt };

    ghost answer_fits = { λ v n b h c. tt };

    ghost item_fits = { λ v c i h k. tt };

    ghost join_fits = { λ v c j h k. tt };

    ghost condition_fits = { λ v c e h k. tt };

    ghost key_fits = { λ v c k h l. tt };

    ghost core_fits = { λ v b c h k. tt };

    ghost step_fits = { λ v s t h k. tt };

    ghost last_fits = { λ v s h. tt };

    #[tactic(auto, using(crate::specs::Levels::depths))]
    fn name(&mut self, _alloc: Global, _node: &SqlExpr) -> Result<u32, AllocError> {
        Ok(1)
    }

    #[tactic(auto, using(crate::specs::Levels::depths))]
    fn int(&mut self, _alloc: Global, _node: &SqlExpr) -> Result<u32, AllocError> {
        Ok(1)
    }

    #[tactic(auto, using(crate::specs::Levels::depths))]
    fn text(&mut self, _alloc: Global, _node: &SqlExpr) -> Result<u32, AllocError> {
        Ok(1)
    }

    #[tactic(auto, using(crate::specs::Levels::depths))]
    fn truth(&mut self, _alloc: Global, _node: &SqlExpr) -> Result<u32, AllocError> {
        Ok(1)
    }

    #[tactic(auto, using(crate::specs::Levels::depths))]
    fn null(&mut self, _alloc: Global, _node: &SqlExpr) -> Result<u32, AllocError> {
        Ok(1)
    }

    #[tactic(auto, using(crate::specs::Levels::depths))]
    fn equal(
        &mut self,
        _alloc: Global,
        _node: &SqlExpr,
        left: u32,
        right: u32,
    ) -> Result<u32, AllocError> {
        Ok(deeper(left.max(right)))
    }

    #[tactic(auto, using(crate::specs::Levels::depths))]
    fn less(
        &mut self,
        _alloc: Global,
        _node: &SqlExpr,
        left: u32,
        right: u32,
    ) -> Result<u32, AllocError> {
        Ok(deeper(left.max(right)))
    }

    #[tactic(auto, using(crate::specs::Levels::depths))]
    fn all(&mut self, _alloc: Global, node: &SqlExpr, parts: Vec<u32>) -> Result<u32, AllocError>
        requires fit { AnyNode (an_expr node.now) }
        requires shape { ((es : List SqlExpr) × (out-SqlExpr node.now ≡ o.All es) × Each (λ x (e : SqlExpr). x ≡ scripts.up_to 32 (scripts.expr_depth e)) parts.items es) }
        ensures kept { Keeps AnyNode AnyNode IsDepth IsDepth }
        ensures out { IfOk result (λ x. IsDepth (of_expr x node.now)) }
    {
        let _ = node;
        Ok(deeper(deepest(&parts)))
    }

    #[tactic(auto, using(crate::specs::Levels::depths))]
    fn any(&mut self, _alloc: Global, node: &SqlExpr, parts: Vec<u32>) -> Result<u32, AllocError>
        requires fit { AnyNode (an_expr node.now) }
        requires shape { ((es : List SqlExpr) × (out-SqlExpr node.now ≡ o.Any es) × Each (λ x (e : SqlExpr). x ≡ scripts.up_to 32 (scripts.expr_depth e)) parts.items es) }
        ensures kept { Keeps AnyNode AnyNode IsDepth IsDepth }
        ensures out { IfOk result (λ x. IsDepth (of_expr x node.now)) }
    {
        let _ = node;
        Ok(deeper(deepest(&parts)))
    }

    #[tactic(auto, using(crate::specs::Levels::depths))]
    fn not(&mut self, _alloc: Global, _node: &SqlExpr, part: u32) -> Result<u32, AllocError> {
        Ok(deeper(part))
    }

    #[tactic(auto, using(crate::specs::Levels::depths))]
    fn is_null(&mut self, _alloc: Global, _node: &SqlExpr, part: u32) -> Result<u32, AllocError> {
        Ok(deeper(part))
    }

    #[tactic(auto, using(crate::specs::Levels::depths))]
    fn case(
        &mut self,
        _alloc: Global,
        node: &SqlExpr,
        tests: Vec<u32>,
        answers: Vec<u32>,
        last: u32,
    ) -> Result<u32, AllocError>
        requires fit { AnyNode (an_expr node.now) }
        requires shape { ((bs : List Branch) × (e : SqlExpr) × (out-SqlExpr node.now ≡ o.Case bs e) × Each (λ x (b : Branch). x ≡ scripts.up_to 32 (scripts.expr_depth b.test)) tests.items bs × Each (λ x (b : Branch). x ≡ scripts.up_to 32 (scripts.expr_depth b.value)) answers.items bs × (last ≡ scripts.up_to 32 (scripts.expr_depth e))) }
        ensures kept { Keeps AnyNode AnyNode IsDepth IsDepth }
        ensures out { IfOk result (λ x. IsDepth (of_expr x node.now)) }
    {
        let _ = node;
        Ok(deeper(deepest(&tests).max(deepest(&answers)).max(last)))
    }

    #[tactic(auto, using(crate::specs::Levels::depths))]
    fn first(&mut self, _alloc: Global, node: &SqlExpr, parts: Vec<u32>) -> Result<u32, AllocError>
        requires fit { AnyNode (an_expr node.now) }
        requires shape { ((es : List SqlExpr) × (out-SqlExpr node.now ≡ o.First es) × Each (λ x (e : SqlExpr). x ≡ scripts.up_to 32 (scripts.expr_depth e)) parts.items es) }
        ensures kept { Keeps AnyNode AnyNode IsDepth IsDepth }
        ensures out { IfOk result (λ x. IsDepth (of_expr x node.now)) }
    {
        let _ = node;
        Ok(deeper(deepest(&parts)))
    }

    #[tactic(auto, using(crate::specs::Levels::depths))]
    fn core(
        &mut self,
        _alloc: Global,
        node: &Core,
        items: Vec<u32>,
        joins: Vec<u32>,
        condition: Option<u32>,
        keys: Vec<u32>,
    ) -> Result<u32, AllocError>
        requires fit { AnyNode (a_core node.now) }
        requires items { Each (λ x (i : Item). x ≡ scripts.up_to 32 (scripts.expr_depth i.expr)) items.items node.now.items }
        requires joins { Each (λ x (j : JoinTo). x ≡ scripts.up_to 32 (scripts.expr_depth j.on)) joins.items node.now.joins }
        requires condition { EachOption (λ x (e : SqlExpr). x ≡ scripts.up_to 32 (scripts.expr_depth e)) condition node.now.condition }
        requires keys { Each (λ x (k : SqlKey). x ≡ scripts.up_to 32 (scripts.expr_depth k.expr)) keys.items node.now.keys }
        ensures kept { Keeps AnyNode AnyNode IsDepth IsDepth }
        ensures out { IfOk result (λ x. IsDepth (of_core x node.now)) }
    {
        let _ = node;
        let condition = condition.unwrap_or(0);
        Ok(deepest(&items).max(deepest(&joins).max(condition.max(deepest(&keys)))))
    }

    #[tactic(auto, using(crate::specs::Levels::depths))]
    fn body(&mut self, _alloc: Global, node: &Body, cores: Vec<u32>) -> Result<u32, AllocError>
        requires fit { AnyNode (a_body node.now) }
        requires cores { Each (λ x (c : Core). x ≡ scripts.up_to 32 (scripts.core_depth c)) cores.items node.now.cores }
        ensures kept { Keeps AnyNode AnyNode IsDepth IsDepth }
        ensures out { IfOk result (λ x. IsDepth (of_body x node.now)) }
    {
        let _ = node;
        Ok(deepest(&cores))
    }

    #[tactic(auto, using(crate::specs::Levels::depths))]
    fn script(
        &mut self,
        _alloc: Global,
        node: &Script,
        steps: Vec<u32>,
        last: u32,
    ) -> Result<u32, AllocError>
        requires fit { AnyNode (a_script node.now) }
        requires steps { Each (λ x (s : Step). x ≡ scripts.up_to 32 (scripts.body_depth s.body)) steps.items node.now.steps }
        requires last { last ≡ scripts.up_to 32 (scripts.body_depth node.now.last) }
        ensures kept { Keeps AnyNode AnyNode IsDepth IsDepth }
        ensures out { IfOk result (λ x. IsDepth (of_script x node.now)) }
    {
        let _ = node;
        Ok(deepest(&steps).max(last))
    }
}
