//! The parts of a script, made anew around other expressions.

ghost use Rattle.std.specs.Prelude.{◌≡◌, IfOk};
ghost use Rattle.sql_alias_renaming.specs.NewNames.{new_name};
ghost use Rattle.sql_alias_renaming.specs.Parts.{branches_of, items_with, joins_with, keys_with, steps_with};

use crate::names::{AliasPair, renamed_source};
use sql_meaning::{Body, Branch, Item, JoinTo, SqlExpr, SqlKey, Step};
use sqlite_items::Items;
use std::alloc::{AllocError, Global};

pub(crate) fn branches_of(
    alloc: Global,
    tests: Vec<SqlExpr>,
    answers: Vec<SqlExpr>,
) -> Result<Items<Branch>, AllocError>
    ensures { IfOk result (λ x. x ≡ branches_of tests.items answers.items) }
{
    let mut made = Items::new(alloc);
    let mut answers = answers.into_iter();
    for test in tests {
        let Some(value) = answers.next() else {
            return Ok(made);
        };
        made.push(Branch { test, value })?;
    }
    Ok(made)
}

pub(crate) fn items_with(
    alloc: Global,
    items: &[Item],
    exprs: Vec<SqlExpr>,
) -> Result<Items<Item>, AllocError>
    ensures { IfOk result (λ x. x ≡ items_with items.now exprs.items) }
{
    let mut made = Items::new(alloc);
    let mut exprs = exprs.into_iter();
    for item in items {
        let Some(expr) = exprs.next() else {
            return Ok(made);
        };
        let name = item.name.copy(alloc)?;
        made.push(Item { expr, name })?;
    }
    Ok(made)
}

pub(crate) fn joins_with(
    alloc: Global,
    names: &[AliasPair],
    joins: &[JoinTo],
    exprs: Vec<SqlExpr>,
) -> Result<Items<JoinTo>, AllocError>
    ensures { IfOk result (λ x. x ≡ joins_with (new_name names.now) joins.now exprs.items) }
{
    let mut made = Items::new(alloc);
    let mut exprs = exprs.into_iter();
    for join in joins {
        let Some(on) = exprs.next() else {
            return Ok(made);
        };
        let source = renamed_source(alloc, names, &join.source)?;
        made.push(JoinTo {
            left: join.left,
            source,
            on,
        })?;
    }
    Ok(made)
}

pub(crate) fn keys_with(
    alloc: Global,
    keys: &[SqlKey],
    exprs: Vec<SqlExpr>,
) -> Result<Items<SqlKey>, AllocError>
    ensures { IfOk result (λ x. x ≡ keys_with keys.now exprs.items) }
{
    let mut made = Items::new(alloc);
    let mut exprs = exprs.into_iter();
    for key in keys {
        let Some(expr) = exprs.next() else {
            return Ok(made);
        };
        made.push(SqlKey {
            expr,
            down: key.down,
        })?;
    }
    Ok(made)
}

pub(crate) fn steps_with(
    alloc: Global,
    steps: &[Step],
    bodies: Vec<Body>,
) -> Result<Items<Step>, AllocError>
    ensures { IfOk result (λ x. x ≡ steps_with steps.now bodies.items) }
{
    let mut made = Items::new(alloc);
    let mut bodies = bodies.into_iter();
    for step in steps {
        let Some(body) = bodies.next() else {
            return Ok(made);
        };
        let name = step.name.copy(alloc)?;
        made.push(Step { name, body })?;
    }
    Ok(made)
}
