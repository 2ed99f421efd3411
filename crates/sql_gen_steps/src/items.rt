//! The columns of SELECTs.

ghost use Rattle.std.specs.Prelude.{◌≡◌, ◌∷◌, ◌++◌, [], map, IfOk, OnOk};
ghost use Rattle.sql_gen_step_laws.specs.StepSelects.{one_item, variable_item, merged_sql, own_sql};

use crate::exprs::{merged, own};
use crate::names::column;
use query_meaning::VarId;
use rdf_meaning::text_of;
use sql_meaning::{Item, SqlExpr};
use sqlite_items::Items;
use std::alloc::{AllocError, Global};

/// The column of ones alone.
pub fn ones(alloc: Global) -> Result<Items<Item>, AllocError>
    ensures { IfOk result (λ items. items ≡ one_item ∷ []) }
{
    let mut items = Items::new(alloc);
    items.push(Item {
        expr: SqlExpr::Int(1),
        name: text_of(alloc, "one")?,
    })?;
    Ok(items)
}

/// The ones, and the variables of both sides of a join.
pub(crate) fn merged_items(
    alloc: Global,
    left: &[VarId],
    right: &[VarId],
    all: &[VarId],
) -> Result<Items<Item>, AllocError>
    ensures { IfOk result (λ items. items ≡ one_item ∷ map (variable_item (merged_sql left.now right.now)) all.now) }
{
    let mut items = ones(alloc)?;
    for &v in all {
        let expr = merged(alloc, left, right, v)?;
        let name = column(alloc, v)?;
        items.push(Item { expr, name })?;
    }
    Ok(items)
}

/// The ones, and variables of one step, with nulls for those that it hasn't.
pub fn own_items(
    alloc: Global,
    variables: &[VarId],
    all: &[VarId],
) -> Result<Items<Item>, AllocError>
    ensures { IfOk result (λ items. items ≡ one_item ∷ map (variable_item (own_sql variables.now)) all.now) }
{
    let mut items = ones(alloc)?;
    for &v in all {
        let expr = own(alloc, variables, v)?;
        let name = column(alloc, v)?;
        items.push(Item { expr, name })?;
    }
    Ok(items)
}
