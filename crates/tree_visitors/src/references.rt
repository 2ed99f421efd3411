//! How often a script reads a primary table, by a walk.

ghost use Rattle.std.specs.Prelude.{◌≡◌, List, IfOk, map};
ghost use Rattle.sql_meaning.specs.Scripts as scripts;
ghost use Rattle.tree_visitors.specs.Counted.{IsCount};
ghost use Rattle.sql_meaning.specs.declared.expression.SqlExpr.{SqlExpr, out-SqlExpr};
ghost use Rattle.sql_meaning.specs.declared.expression.SqlExpr.TheOpen as o;
ghost use Rattle.sql_meaning.specs.declared.expression.Branch.{Branch};
ghost use Rattle.sql_meaning.specs.declared.script.Core.{Core};
ghost use Rattle.sql_meaning.specs.declared.script.Item.{Item};
ghost use Rattle.sql_meaning.specs.declared.script.JoinTo.{JoinTo};
ghost use Rattle.sql_meaning.specs.declared.script.SqlKey.{SqlKey};
ghost use Rattle.sql_meaning.specs.declared.script.Step.{Step};
ghost use Rattle.sql_alias_meaning.specs.Each.{Each, EachOption, Keeps};
ghost use Rattle.sql_alias_meaning.specs.Nodes.{an_expr, a_core, a_body, a_script, of_expr, of_core, of_body, of_script};
ghost use Rattle.tree_visitors.specs.AnyNode.{AnyNode};

use sql_fold::SqlFold;
use sql_meaning::{Body, Core, JoinTo, Script, Source, SqlExpr};
use std::alloc::{AllocError, Global};

fn source_refs(source: &Source) -> u64
    ensures { result ≡ scripts.source_refs source.now }
{
    if source.table.as_str() == "DPH" || source.table.as_str() == "RPH" {
        1
    } else {
        0
    }
}

fn joins_refs(joins: &[JoinTo]) -> u64
    ensures { result ≡ scripts.up_to 64 (scripts.total (map scripts.join_refs joins.now)) }
{
    let mut refs = 0u64;
    for join in joins {
        refs = refs.saturating_add(source_refs(&join.source));
    }
    refs
}

fn core_refs(core: &Core) -> u64
    ensures { result ≡ scripts.up_to 64 (scripts.core_refs core.now) }
{
    let first = match &core.from {
        Some(source) => source_refs(source),
        None => 0,
    };
    joins_refs(core.joins.as_slice()).saturating_add(first)
}

// The sum, which stops at the last value.
fn total(counts: &[u64]) -> u64
    ensures { result ≡ scripts.up_to 64 (scripts.total counts.now) }
{
    let mut sum = 0u64;
    for count in counts {
        sum = sum.saturating_add(*count);
    }
    sum
}

/// Counts the sources named DPH or RPH; the last `u64` stands for all larger counts.
#[derive(Drop)]
pub struct CountRefs;

impl SqlFold for CountRefs {
    type ExprOut = u64;

    type CoreOut = u64;

    type BodyOut = u64;

    type Out = u64;

    ghost fits = { λ v n. AnyNode n };

    ghost stands = { λ v m. IsCount m };

    ghost part_fits = { λ v n e h c. tt };

    ghost test_fits = { λ v n b h c. tt };

    ghost answer_fits = { λ v n b h c. tt };

    ghost item_fits = { λ v c i h k. tt };

    ghost join_fits = { λ v c j h k. tt };

    ghost condition_fits = { λ v c e h k. tt };

    ghost key_fits = { λ v c k h l. tt };

    ghost core_fits = { λ v b c h k. tt };

    ghost step_fits = { λ v s t h k. tt };

    ghost last_fits = { λ v s h. tt };

    fn name(&mut self, _alloc: Global, _node: &SqlExpr) -> Result<u64, AllocError> {
        Ok(0)
    }

    fn int(&mut self, _alloc: Global, _node: &SqlExpr) -> Result<u64, AllocError> {
        Ok(0)
    }

    fn text(&mut self, _alloc: Global, _node: &SqlExpr) -> Result<u64, AllocError> {
        Ok(0)
    }

    fn truth(&mut self, _alloc: Global, _node: &SqlExpr) -> Result<u64, AllocError> {
        Ok(0)
    }

    fn null(&mut self, _alloc: Global, _node: &SqlExpr) -> Result<u64, AllocError> {
        Ok(0)
    }

    fn equal(
        &mut self,
        _alloc: Global,
        _node: &SqlExpr,
        _left: u64,
        _right: u64,
    ) -> Result<u64, AllocError> {
        Ok(0)
    }

    fn less(
        &mut self,
        _alloc: Global,
        _node: &SqlExpr,
        _left: u64,
        _right: u64,
    ) -> Result<u64, AllocError> {
        Ok(0)
    }

    fn all(&mut self, _alloc: Global, node: &SqlExpr, parts: Vec<u64>) -> Result<u64, AllocError>
        requires fit { AnyNode (an_expr node.now) }
        requires shape { ((es : List SqlExpr) × (out-SqlExpr node.now ≡ o.All es) × Each (λ x (e : SqlExpr). x ≡ 0) parts.items es) }
        ensures kept { Keeps AnyNode AnyNode IsCount IsCount }
        ensures out { IfOk result (λ x. IsCount (of_expr x node.now)) }
    {
        let _ = node;
        let _ = parts;
        Ok(0)
    }

    fn any(&mut self, _alloc: Global, node: &SqlExpr, parts: Vec<u64>) -> Result<u64, AllocError>
        requires fit { AnyNode (an_expr node.now) }
        requires shape { ((es : List SqlExpr) × (out-SqlExpr node.now ≡ o.Any es) × Each (λ x (e : SqlExpr). x ≡ 0) parts.items es) }
        ensures kept { Keeps AnyNode AnyNode IsCount IsCount }
        ensures out { IfOk result (λ x. IsCount (of_expr x node.now)) }
    {
        let _ = node;
        let _ = parts;
        Ok(0)
    }

    fn not(&mut self, _alloc: Global, _node: &SqlExpr, _part: u64) -> Result<u64, AllocError> {
        Ok(0)
    }

    fn is_null(&mut self, _alloc: Global, _node: &SqlExpr, _part: u64) -> Result<u64, AllocError> {
        Ok(0)
    }

    fn case(
        &mut self,
        _alloc: Global,
        node: &SqlExpr,
        tests: Vec<u64>,
        answers: Vec<u64>,
        last: u64,
    ) -> Result<u64, AllocError>
        requires fit { AnyNode (an_expr node.now) }
        requires shape { ((bs : List Branch) × (e : SqlExpr) × (out-SqlExpr node.now ≡ o.Case bs e) × Each (λ x (b : Branch). x ≡ 0) tests.items bs × Each (λ x (b : Branch). x ≡ 0) answers.items bs × (last ≡ 0)) }
        ensures kept { Keeps AnyNode AnyNode IsCount IsCount }
        ensures out { IfOk result (λ x. IsCount (of_expr x node.now)) }
    {
        let _ = node;
        let _ = (tests, answers, last);
        Ok(0)
    }

    fn first(&mut self, _alloc: Global, node: &SqlExpr, parts: Vec<u64>) -> Result<u64, AllocError>
        requires fit { AnyNode (an_expr node.now) }
        requires shape { ((es : List SqlExpr) × (out-SqlExpr node.now ≡ o.First es) × Each (λ x (e : SqlExpr). x ≡ 0) parts.items es) }
        ensures kept { Keeps AnyNode AnyNode IsCount IsCount }
        ensures out { IfOk result (λ x. IsCount (of_expr x node.now)) }
    {
        let _ = node;
        let _ = parts;
        Ok(0)
    }

    fn core(
        &mut self,
        _alloc: Global,
        node: &Core,
        items: Vec<u64>,
        joins: Vec<u64>,
        condition: Option<u64>,
        keys: Vec<u64>,
    ) -> Result<u64, AllocError>
        requires fit { AnyNode (a_core node.now) }
        requires items { Each (λ x (i : Item). x ≡ 0) items.items node.now.items }
        requires joins { Each (λ x (j : JoinTo). x ≡ 0) joins.items node.now.joins }
        requires condition { EachOption (λ x (e : SqlExpr). x ≡ 0) condition node.now.condition }
        requires keys { Each (λ x (k : SqlKey). x ≡ 0) keys.items node.now.keys }
        ensures kept { Keeps AnyNode AnyNode IsCount IsCount }
        ensures out { IfOk result (λ x. IsCount (of_core x node.now)) }
    {
        let _ = (items, joins, condition, keys);
        Ok(core_refs(node))
    }

    #[tactic(auto, using(crate::specs::Counted::counts))]
    fn body(&mut self, _alloc: Global, node: &Body, cores: Vec<u64>) -> Result<u64, AllocError>
        requires fit { AnyNode (a_body node.now) }
        requires cores { Each (λ x (c : Core). x ≡ scripts.up_to 64 (scripts.core_refs c)) cores.items node.now.cores }
        ensures kept { Keeps AnyNode AnyNode IsCount IsCount }
        ensures out { IfOk result (λ x. IsCount (of_body x node.now)) }
    {
        let _ = node;
        Ok(total(&cores))
    }

    #[tactic(auto, using(crate::specs::Counted::counts))]
    fn script(
        &mut self,
        _alloc: Global,
        node: &Script,
        steps: Vec<u64>,
        last: u64,
    ) -> Result<u64, AllocError>
        requires fit { AnyNode (a_script node.now) }
        requires steps { Each (λ x (s : Step). x ≡ scripts.up_to 64 (scripts.body_refs s.body)) steps.items node.now.steps }
        requires last { last ≡ scripts.up_to 64 (scripts.body_refs node.now.last) }
        ensures kept { Keeps AnyNode AnyNode IsCount IsCount }
        ensures out { IfOk result (λ x. IsCount (of_script x node.now)) }
    {
        let _ = node;
        Ok(total(&steps).saturating_add(last))
    }
}
