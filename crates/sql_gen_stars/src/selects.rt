//! Parts that all SELECTs of a star have.

ghost use Rattle.std.specs.Prelude.{◌≡◌, ◌<◌, ◌∷◌, [], false, Some, None, IfOk};
ghost use Rattle.sql_gen_step_laws.specs.Carried.{column};
ghost use Rattle.sql_gen_step_laws.specs.StepSelects.{one_item};
ghost use Rattle.sql_gen_star_meaning.specs.Asked.{asked_vars};
ghost use Rattle.sql_gen_star_meaning.specs.Partials.{cell_name};
ghost use Rattle.sql_gen_star_meaning.specs.StarSelects.{where_every};

use crate::exprs::{int, where_every};
use crate::names::{cell_column, column};
use query_meaning::VarId;
use rdf_meaning::text_of;
use sql_gen_star_meaning::Asked;
use sql_meaning::{Core, Item, JoinTo, Source, SqlExpr};
use sqlite_items::Items;
use std::alloc::{AllocError, Global};

/// The variables that are bound behind a place, where these are bound before it: a new one comes last.
pub fn asked_vars(alloc: Global, asked: Asked, before: &[VarId]) -> Result<Vec<VarId>, AllocError>
    ensures { IfOk result (λ vs. vs.items ≡ asked_vars asked before.now) }
{
    let mut vs = Vec::from_slice(alloc, before)?;
    match asked {
        Asked::New(v) | Asked::Maybe(v) => vs.push(v)?,
        Asked::Constant(_) | Asked::Again(_) => {}
    }
    Ok(vs)
}

/// The first column, of ones.
pub(crate) fn one_item(alloc: Global) -> Result<Items<Item>, AllocError>
    ensures { IfOk result (λ items. items ≡ one_item ∷ []) }
{
    let mut items = Items::new(alloc);
    let name = text_of(alloc, "one")?;
    items.push(Item { expr: int(1), name })?;
    Ok(items)
}

pub(crate) fn variable_item(alloc: Global, expr: SqlExpr, v: VarId) -> Result<Item, AllocError>
    ensures { IfOk result (λ item. item ≡ record { expr = expr; name = column v }) }
{
    let name = column(alloc, v)?;
    Ok(Item { expr, name })
}

pub(crate) fn cell_item(alloc: Global, expr: SqlExpr, arm: u32) -> Result<Item, AllocError>
    requires { arm < 100 }
    ensures { IfOk result (λ item. item ≡ record { expr = expr; name = cell_name arm }) }
{
    let name = cell_column(alloc, arm)?;
    Ok(Item { expr, name })
}

pub(crate) fn source(alloc: Global, table: &str, alias: &str) -> Result<Source, AllocError>
    ensures { IfOk result (λ source. source ≡ record { table = table.now; alias = alias.now }) }
{
    Ok(Source {
        table: text_of(alloc, table)?,
        alias: text_of(alloc, alias)?,
    })
}

/// A SELECT with no more than this.
pub(crate) fn plain_core(
    alloc: Global,
    items: Items<Item>,
    from: Source,
    joins: Items<JoinTo>,
    tests: Items<SqlExpr>,
) -> Core
    ensures { result ≡ record { distinct = false; items = items; from = Some from; joins = joins; condition = where_every tests; keys = []; most = None; skip = None } }
{
    Core {
        distinct: false,
        items,
        from: Some(from),
        joins,
        condition: where_every(tests),
        keys: Items::new(alloc),
        most: None,
        skip: None,
    }
}
