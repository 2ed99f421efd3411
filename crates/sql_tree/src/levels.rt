//! How deep the expressions of a script are.

ghost use Rattle.std.specs.Prelude.{◌≡◌, map, suc, max};
ghost use Rattle.sql_meaning.specs.Scripts as scripts;
ghost use Rattle.sql_tree.specs.Depths.{branch_depth};

use sql_meaning::{Body, Branch, Core, Item, JoinTo, Script, SqlExpr, SqlKey, Step};

// One level more, which stops at the last value.
fn deeper(depth: u32) -> u32
    ensures { result ≡ scripts.up_to 32 (suc depth) }
{
    depth.saturating_add(1)
}

#[cycle(depth)]
#[tactic(auto, using(crate::specs::Depths::depth_levels))]
fn expr_depth(expr: &SqlExpr) -> u32
    ensures { result ≡ scripts.up_to 32 (scripts.expr_depth expr.now) }
{
    match expr {
        SqlExpr::Name(..) => 1,
        SqlExpr::Int(_) => 1,
        SqlExpr::Text(_) => 1,
        SqlExpr::Truth(_) => 1,
        SqlExpr::Null(_) => 1,
        SqlExpr::Equal(left, right) => deeper(expr_depth(left.get()).max(expr_depth(right.get()))),
        SqlExpr::Less(left, right) => deeper(expr_depth(left.get()).max(expr_depth(right.get()))),
        SqlExpr::All(parts) => deeper(parts_depth(parts.as_slice())),
        SqlExpr::Any(parts) => deeper(parts_depth(parts.as_slice())),
        SqlExpr::Not(part) => deeper(expr_depth(part.get())),
        SqlExpr::IsNull(part) => deeper(expr_depth(part.get())),
        SqlExpr::Case(branches, last) => {
            deeper(branches_depth(branches.as_slice()).max(expr_depth(last.get())))
        }
        SqlExpr::First(parts) => deeper(parts_depth(parts.as_slice())),
    }
}

#[cycle(depth)]
fn parts_depth(parts: &[SqlExpr]) -> u32
    ensures { result ≡ scripts.up_to 32 (scripts.largest (map scripts.expr_depth parts.now)) }
{
    let mut deepest = 0;
    for part in parts {
        deepest = expr_depth(part).max(deepest);
    }
    deepest
}

#[cycle(depth)]
fn branches_depth(branches: &[Branch]) -> u32
    ensures { result ≡ scripts.up_to 32 (scripts.largest (map branch_depth branches.now)) }
{
    let mut deepest = 0;
    for branch in branches {
        deepest = expr_depth(&branch.test)
            .max(expr_depth(&branch.value))
            .max(deepest);
    }
    deepest
}

fn items_depth(items: &[Item]) -> u32
    ensures { result ≡ scripts.up_to 32 (scripts.largest (map scripts.item_depth items.now)) }
{
    let mut deepest = 0;
    for item in items {
        deepest = expr_depth(&item.expr).max(deepest);
    }
    deepest
}

fn joins_depth(joins: &[JoinTo]) -> u32
    ensures { result ≡ scripts.up_to 32 (scripts.largest (map scripts.join_depth joins.now)) }
{
    let mut deepest = 0;
    for join in joins {
        deepest = expr_depth(&join.on).max(deepest);
    }
    deepest
}

fn keys_depth(keys: &[SqlKey]) -> u32
    ensures { result ≡ scripts.up_to 32 (scripts.largest (map scripts.key_depth keys.now)) }
{
    let mut deepest = 0;
    for key in keys {
        deepest = expr_depth(&key.expr).max(deepest);
    }
    deepest
}

fn condition_depth(condition: &Option<SqlExpr>) -> u32
    ensures { result ≡ scripts.up_to 32 (scripts.condition_depth condition.now) }
{
    match condition {
        Some(condition) => expr_depth(condition),
        None => 0,
    }
}

fn core_depth(core: &Core) -> u32
    ensures { result ≡ scripts.up_to 32 (scripts.core_depth core.now) }
{
    let items = items_depth(core.items.as_slice());
    let joins = joins_depth(core.joins.as_slice());
    let condition = condition_depth(&core.condition);
    items.max(joins.max(condition.max(keys_depth(core.keys.as_slice()))))
}

fn body_depth(body: &Body) -> u32
    ensures { result ≡ scripts.up_to 32 (scripts.body_depth body.now) }
{
    let mut deepest = 0;
    for core in body.cores.as_slice() {
        deepest = core_depth(core).max(deepest);
    }
    deepest
}

fn steps_depth(steps: &[Step]) -> u32
    ensures { result ≡ scripts.up_to 32 (scripts.largest (map scripts.step_depth steps.now)) }
{
    let mut deepest = 0;
    for step in steps {
        deepest = body_depth(&step.body).max(deepest);
    }
    deepest
}

/// The depth of a script's deepest expression, or the last `u32` where it is larger. A leaf has depth
/// 1, another expression 1 more than its deepest part. Takes no memory.
pub fn depth(script: &Script) -> u32
    ensures { result ≡ scripts.up_to 32 (scripts.depth_of script.now) }
{
    steps_depth(script.steps.as_slice()).max(body_depth(&script.last))
}
