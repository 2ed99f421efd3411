//! The SELECT that opens an arm.

ghost use Rattle.std.specs.Prelude.{◌≡◌, ◌<◌, ◌∷◌, [], true, map, IfOk};
ghost use Rattle.std.specs.List.{AllByRecursion};
ghost use Rattle.sql_meaning.specs.declared.expression.SqlExpr.TheVariants as sql;
ghost use Rattle.sql_gen_step_laws.specs.StepSelects.{one_item, variable_item};
ghost use Rattle.sql_gen_star_meaning.specs.SideTables.{lid_name};
ghost use Rattle.sql_gen_star_meaning.specs.StarSelects.{list_alias, opened_sql, open_tests, or_opened, open_sql, cell_item, kept_sql, open_core};

use crate::exprs::{BEFORE, LISTS, bound, equal, int, is_there, kept, named};
use crate::selects::{asked_vars, cell_item, one_item, plain_core, source, variable_item};
use query_meaning::VarId;
use rdf_meaning::text_of;
use sql_gen_star_meaning::Asked;
use sql_meaning::{Core, Item, JoinTo, SqlExpr};
use sqlite_items::Items;
use std::alloc::{AllocError, Global};

/// An element of a list, or the one value.
fn opened(alloc: Global, arm: u32) -> Result<SqlExpr, AllocError>
    requires { arm < 100 }
    ensures { IfOk result (λ e. e ≡ opened_sql arm) }
{
    let mut parts = Items::new(alloc);
    parts.push(named(alloc, LISTS, text_of(alloc, "elm")?)?)?;
    parts.push(kept(alloc, arm)?)?;
    Ok(SqlExpr::First(parts))
}

/// A null is no id, so only a new variable asks for a value that isn't null.
fn open_tests(alloc: Global, arm: u32, asked: Asked) -> Result<Items<SqlExpr>, AllocError>
    requires { arm < 100 }
    ensures { IfOk result (λ tests. tests ≡ open_tests arm asked) }
{
    let mut tests = Items::new(alloc);
    match asked {
        Asked::Constant(id) => tests.push(equal(alloc, opened(alloc, arm)?, int(id))?)?,
        Asked::Again(v) => tests.push(equal(alloc, opened(alloc, arm)?, bound(alloc, v)?)?)?,
        Asked::New(_) => tests.push(is_there(alloc, opened(alloc, arm)?)?)?,
        Asked::Maybe(_) => {}
    }
    Ok(tests)
}

/// The arm's value for its own variable, and for others what they have before.
fn or_opened(alloc: Global, arm: u32, own: VarId, v: VarId) -> Result<SqlExpr, AllocError>
    requires { arm < 100 }
    ensures { IfOk result (λ e. e ≡ or_opened arm own v) }
{
    if v.number() == own.number() {
        opened(alloc, arm)
    } else {
        bound(alloc, v)
    }
}

/// A variable's column.
fn open_expr(alloc: Global, arm: u32, asked: Asked, v: VarId) -> Result<SqlExpr, AllocError>
    requires { arm < 100 }
    ensures { IfOk result (λ e. e ≡ open_sql arm asked v) }
{
    match asked {
        Asked::New(own) | Asked::Maybe(own) => or_opened(alloc, arm, own, v),
        Asked::Constant(_) | Asked::Again(_) => bound(alloc, v),
    }
}

fn open_items(
    alloc: Global,
    arm: u32,
    asked: Asked,
    vs: &[VarId],
) -> Result<Items<Item>, AllocError>
    requires { arm < 100 }
    ensures { IfOk result (λ items. items ≡ one_item ∷ map (variable_item (open_sql arm asked)) vs.now) }
{
    let mut items = one_item(alloc)?;
    for &v in vs {
        let expr = open_expr(alloc, arm, asked, v)?;
        items.push(variable_item(alloc, expr, v)?)?;
    }
    Ok(items)
}

/// The cells of arms that aren't open yet.
fn kept_items(alloc: Global, arms: &[u32]) -> Result<Items<Item>, AllocError>
    requires { AllByRecursion (λ arm. arm < 100) arms.now }
    ensures { IfOk result (λ items. items ≡ map (cell_item kept_sql) arms.now) }
{
    let mut items = Items::new(alloc);
    for &arm in arms {
        items.push(cell_item(alloc, kept(alloc, arm)?, arm)?)?;
    }
    Ok(items)
}

/// LEFT JOIN with the list that the arm's cell names.
fn list_join(alloc: Global, lists: &str, arm: u32) -> Result<Items<JoinTo>, AllocError>
    requires { arm < 100 }
    ensures { IfOk result (λ joins. joins ≡ record { left = true; source = record { table = lists.now; alias = list_alias }; on = sql.Equal (sql.Name list_alias lid_name) (kept_sql arm) } ∷ []) }
{
    let list = named(alloc, LISTS, text_of(alloc, "lid")?)?;
    let on = equal(alloc, list, kept(alloc, arm)?)?;
    let mut joins = Items::new(alloc);
    joins.push(JoinTo {
        left: true,
        source: source(alloc, lists, LISTS)?,
        on,
    })?;
    Ok(joins)
}

/// The SELECT that opens an arm of the step before, where these variables are bound: each of its rows with each value of the
/// arm's cell that is what is asked. The cells of the arms in `later` stay. Arms have numbers below 100.
pub fn open_core(
    alloc: Global,
    before: &str,
    lists: &str,
    vs: &[VarId],
    arm: u32,
    later: &[u32],
    asked: Asked,
) -> Result<Core, AllocError>
    requires arm { arm < 100 }
    requires later { AllByRecursion (λ i. i < 100) later.now }
    ensures { IfOk result (λ core. core ≡ open_core before.now lists.now vs.now arm later.now asked) }
{
    let vs = asked_vars(alloc, asked, vs)?;
    let mut items = open_items(alloc, arm, asked, vs.as_slice())?;
    items.append(kept_items(alloc, later)?)?;
    let from = source(alloc, before, BEFORE)?;
    let joins = list_join(alloc, lists, arm)?;
    let tests = open_tests(alloc, arm, asked)?;
    Ok(plain_core(alloc, items, from, joins, tests))
}
