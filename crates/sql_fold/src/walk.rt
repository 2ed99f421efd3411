//! The walk over a script.

ghost use Rattle.std.specs.Prelude.{◌≡◌, IfOk, Contains, Some};
ghost use Rattle.sql_meaning.specs.declared.expression.SqlExpr.{SqlExpr};
ghost use Rattle.sql_meaning.specs.declared.expression.Branch.{Branch};
ghost use Rattle.sql_meaning.specs.declared.script.Core.{Core};
ghost use Rattle.sql_meaning.specs.declared.script.Item.{Item};
ghost use Rattle.sql_meaning.specs.declared.script.JoinTo.{JoinTo};
ghost use Rattle.sql_meaning.specs.declared.script.SqlKey.{SqlKey};
ghost use Rattle.sql_meaning.specs.declared.script.Step.{Step};
ghost use Rattle.sql_alias_meaning.specs.Each.{Each, EachOption, Keeps};
ghost use Rattle.sql_alias_meaning.specs.Nodes.{an_expr, a_core, a_body, a_script, of_expr, of_core, of_body, of_script};

use crate::visitor::SqlFold;
use sql_meaning::{Body, Branch, Core, Item, JoinTo, Script, SqlExpr, SqlKey, Step};
use std::alloc::{AllocError, Global};

// What the tests and the values of the branches of a CASE gave.
#[derive(Drop)]
struct Branches<E> {
    tests: Vec<E>,
    answers: Vec<E>,
}

#[cycle(expr)]
#[tactic(auto, using(crate::proofs::Children::fit_later))]
fn fold_expr<V: SqlFold>(alloc: Global, v: &mut V, e: &SqlExpr) -> Result<V::ExprOut, AllocError>
    requires { V.fits v.old (an_expr e.now) }
    ensures kept { Keeps (V.fits v.old) (V.fits v.new) (V.stands v.old) (V.stands v.new) }
    ensures out { IfOk result (λ x. V.stands v.old (of_expr x e.now)) }
{
    match e {
        SqlExpr::Name(..) => v.name(alloc, e),
        SqlExpr::Int(_) => v.int(alloc, e),
        SqlExpr::Text(_) => v.text(alloc, e),
        SqlExpr::Truth(_) => v.truth(alloc, e),
        SqlExpr::Null(_) => v.null(alloc, e),
        SqlExpr::Equal(left, right) => {
            let left = fold_expr(alloc, v, left.get())?;
            let right = fold_expr(alloc, v, right.get())?;
            v.equal(alloc, e, left, right)
        }
        SqlExpr::Less(left, right) => {
            let left = fold_expr(alloc, v, left.get())?;
            let right = fold_expr(alloc, v, right.get())?;
            v.less(alloc, e, left, right)
        }
        SqlExpr::All(parts) => {
            let parts = fold_parts(alloc, v, parts.as_slice())?;
            v.all(alloc, e, parts)
        }
        SqlExpr::Any(parts) => {
            let parts = fold_parts(alloc, v, parts.as_slice())?;
            v.any(alloc, e, parts)
        }
        SqlExpr::Not(part) => {
            let part = fold_expr(alloc, v, part.get())?;
            v.not(alloc, e, part)
        }
        SqlExpr::IsNull(part) => {
            let part = fold_expr(alloc, v, part.get())?;
            v.is_null(alloc, e, part)
        }
        SqlExpr::Case(branches, last) => {
            let last = fold_expr(alloc, v, last.get())?;
            let outs = fold_branches(alloc, v, branches.as_slice())?;
            v.case(alloc, e, outs.tests, outs.answers, last)
        }
        SqlExpr::First(parts) => {
            let parts = fold_parts(alloc, v, parts.as_slice())?;
            v.first(alloc, e, parts)
        }
    }
}

#[cycle(expr)]
#[tactic(auto, using(crate::proofs::Children::fit_at))]
fn fold_parts<V: SqlFold>(
    alloc: Global,
    v: &mut V,
    parts: &[SqlExpr],
) -> Result<Vec<V::ExprOut>, AllocError>
    requires { (e : SqlExpr) → Contains parts.now e → V.fits v.old (an_expr e) }
    ensures kept { Keeps (V.fits v.old) (V.fits v.new) (V.stands v.old) (V.stands v.new) }
    ensures out { IfOk result (λ xs. Each (λ x e. V.stands v.new (of_expr x e)) xs.items parts.now) }
{
    let mut outs = Vec::new(alloc);
    for part in parts {
        let out = fold_expr(alloc, v, part)?;
        outs.push(out)?;
    }
    Ok(outs)
}

#[cycle(expr)]
#[tactic(auto, using(crate::proofs::Children::fit_at))]
fn fold_branches<V: SqlFold>(
    alloc: Global,
    v: &mut V,
    branches: &[Branch],
) -> Result<Branches<V::ExprOut>, AllocError>
    requires tests { (b : Branch) → Contains branches.now b → V.fits v.old (an_expr b.test) }
    requires answers { (b : Branch) → Contains branches.now b → V.fits v.old (an_expr b.value) }
    ensures kept { Keeps (V.fits v.old) (V.fits v.new) (V.stands v.old) (V.stands v.new) }
    ensures tests { IfOk result (λ xs. Each (λ x (b : Branch). V.stands v.new (of_expr x b.test)) xs.tests.items branches.now) }
    ensures answers { IfOk result (λ xs. Each (λ x (b : Branch). V.stands v.new (of_expr x b.value)) xs.answers.items branches.now) }
{
    let mut tests = Vec::new(alloc);
    let mut answers = Vec::new(alloc);
    for branch in branches {
        let test = fold_expr(alloc, v, &branch.test)?;
        tests.push(test)?;
        let answer = fold_expr(alloc, v, &branch.value)?;
        answers.push(answer)?;
    }
    Ok(Branches { tests, answers })
}

#[tactic(auto, using(crate::proofs::Children::fit_at))]
fn fold_items<V: SqlFold>(
    alloc: Global,
    v: &mut V,
    items: &[Item],
) -> Result<Vec<V::ExprOut>, AllocError>
    requires { (i : Item) → Contains items.now i → V.fits v.old (an_expr i.expr) }
    ensures kept { Keeps (V.fits v.old) (V.fits v.new) (V.stands v.old) (V.stands v.new) }
    ensures out { IfOk result (λ xs. Each (λ x (i : Item). V.stands v.new (of_expr x i.expr)) xs.items items.now) }
{
    let mut outs = Vec::new(alloc);
    for item in items {
        let out = fold_expr(alloc, v, &item.expr)?;
        outs.push(out)?;
    }
    Ok(outs)
}

#[tactic(auto, using(crate::proofs::Children::fit_at))]
fn fold_joins<V: SqlFold>(
    alloc: Global,
    v: &mut V,
    joins: &[JoinTo],
) -> Result<Vec<V::ExprOut>, AllocError>
    requires { (j : JoinTo) → Contains joins.now j → V.fits v.old (an_expr j.on) }
    ensures kept { Keeps (V.fits v.old) (V.fits v.new) (V.stands v.old) (V.stands v.new) }
    ensures out { IfOk result (λ xs. Each (λ x (j : JoinTo). V.stands v.new (of_expr x j.on)) xs.items joins.now) }
{
    let mut outs = Vec::new(alloc);
    for join in joins {
        let out = fold_expr(alloc, v, &join.on)?;
        outs.push(out)?;
    }
    Ok(outs)
}

fn fold_condition<V: SqlFold>(
    alloc: Global,
    v: &mut V,
    condition: &Option<SqlExpr>,
) -> Result<Option<V::ExprOut>, AllocError>
    requires { (e : SqlExpr) → condition.now ≡ Some e → V.fits v.old (an_expr e) }
    ensures kept { Keeps (V.fits v.old) (V.fits v.new) (V.stands v.old) (V.stands v.new) }
    ensures out { IfOk result (λ x. EachOption (λ x e. V.stands v.new (of_expr x e)) x condition.now) }
{
    match condition {
        Some(condition) => Ok(Some(fold_expr(alloc, v, condition)?)),
        None => Ok(None),
    }
}

#[tactic(auto, using(crate::proofs::Children::fit_at))]
fn fold_keys<V: SqlFold>(
    alloc: Global,
    v: &mut V,
    keys: &[SqlKey],
) -> Result<Vec<V::ExprOut>, AllocError>
    requires { (k : SqlKey) → Contains keys.now k → V.fits v.old (an_expr k.expr) }
    ensures kept { Keeps (V.fits v.old) (V.fits v.new) (V.stands v.old) (V.stands v.new) }
    ensures out { IfOk result (λ xs. Each (λ x (k : SqlKey). V.stands v.new (of_expr x k.expr)) xs.items keys.now) }
{
    let mut outs = Vec::new(alloc);
    for key in keys {
        let out = fold_expr(alloc, v, &key.expr)?;
        outs.push(out)?;
    }
    Ok(outs)
}

fn fold_core<V: SqlFold>(alloc: Global, v: &mut V, core: &Core) -> Result<V::CoreOut, AllocError>
    requires { V.fits v.old (a_core core.now) }
    ensures kept { Keeps (V.fits v.old) (V.fits v.new) (V.stands v.old) (V.stands v.new) }
    ensures out { IfOk result (λ x. V.stands v.old (of_core x core.now)) }
{
    let items = fold_items(alloc, v, core.items.as_slice())?;
    let joins = fold_joins(alloc, v, core.joins.as_slice())?;
    let condition = fold_condition(alloc, v, &core.condition)?;
    let keys = fold_keys(alloc, v, core.keys.as_slice())?;
    v.core(alloc, core, items, joins, condition, keys)
}

#[tactic(auto, using(crate::proofs::Children::fit_at))]
fn fold_cores<V: SqlFold>(
    alloc: Global,
    v: &mut V,
    cores: &[Core],
) -> Result<Vec<V::CoreOut>, AllocError>
    requires { (c : Core) → Contains cores.now c → V.fits v.old (a_core c) }
    ensures kept { Keeps (V.fits v.old) (V.fits v.new) (V.stands v.old) (V.stands v.new) }
    ensures out { IfOk result (λ xs. Each (λ x (c : Core). V.stands v.new (of_core x c)) xs.items cores.now) }
{
    let mut outs = Vec::new(alloc);
    for core in cores {
        let out = fold_core(alloc, v, core)?;
        outs.push(out)?;
    }
    Ok(outs)
}

fn fold_body<V: SqlFold>(alloc: Global, v: &mut V, body: &Body) -> Result<V::BodyOut, AllocError>
    requires { V.fits v.old (a_body body.now) }
    ensures kept { Keeps (V.fits v.old) (V.fits v.new) (V.stands v.old) (V.stands v.new) }
    ensures out { IfOk result (λ x. V.stands v.old (of_body x body.now)) }
{
    let cores = fold_cores(alloc, v, body.cores.as_slice())?;
    v.body(alloc, body, cores)
}

#[tactic(auto, using(crate::proofs::Children::fit_at))]
fn fold_steps<V: SqlFold>(
    alloc: Global,
    v: &mut V,
    steps: &[Step],
) -> Result<Vec<V::BodyOut>, AllocError>
    requires { (s : Step) → Contains steps.now s → V.fits v.old (a_body s.body) }
    ensures kept { Keeps (V.fits v.old) (V.fits v.new) (V.stands v.old) (V.stands v.new) }
    ensures out { IfOk result (λ xs. Each (λ x (s : Step). V.stands v.new (of_body x s.body)) xs.items steps.now) }
{
    let mut outs = Vec::new(alloc);
    for step in steps {
        let out = fold_body(alloc, v, &step.body)?;
        outs.push(out)?;
    }
    Ok(outs)
}

/// Walks a script from its leaves up. What the visitor makes of it stands for the whole script.
pub fn fold_sql<V: SqlFold>(alloc: Global, v: &mut V, s: &Script) -> Result<V::Out, AllocError>
    requires { V.fits v.old (a_script s.now) }
    ensures kept { Keeps (V.fits v.old) (V.fits v.new) (V.stands v.old) (V.stands v.new) }
    ensures out { IfOk result (λ x. V.stands v.old (of_script x s.now)) }
{
    let steps = fold_steps(alloc, v, s.steps.as_slice())?;
    let last = fold_body(alloc, v, &s.last)?;
    v.script(alloc, s, steps, last)
}
