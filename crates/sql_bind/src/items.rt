//! The items of a SELECT.

ghost use Rattle.std.specs.Prelude.{◌≡◌, [], Ok, Err, IfOk, IfErr};
ghost use Rattle.sql_rows_meaning.specs.declared.fault.FaultKind.{FaultKind};
ghost use Rattle.sql_rows_meaning.specs.Binding.{check_items};
ghost use Rattle.sql_bind_laws.specs.Places.{places_of, place_items};
ghost use Rattle.sql_bind_names.specs.Newest.{scope_in};
ghost use Rattle.sql_bind_names.specs.declared.stop.Stop.TheVariants as stop;

use crate::names::Names;
use sql_bind_expressions::bind_expr;
use sql_bind_meaning::BoundExpr;
use sql_bind_names::{Sources, Stop};
use sql_meaning::Item;
use sql_rows_meaning::FaultKind;
use sqlite_items::Items;
use std::alloc::Global;
use table_meaning::Column;

/// The expressions of the items, and the columns of the rows.
#[derive(Drop)]
pub(crate) struct BoundItems {
    pub(crate) exprs: Items<BoundExpr>,
    pub(crate) columns: Vec<Column>,
}

/// The items: an expression goes before its name.
#[tactic(auto, using(crate::proofs::ItemSteps::steps))]
pub(crate) fn bind_items(
    alloc: Global,
    sources: &Sources<'_>,
    items: &[Item],
) -> Result<BoundItems, Stop>
    ensures fine { IfOk result (λ r. check_items (scope_in sources.now) [] items.now ≡ Ok r.columns.items) }
    ensures exprs { IfOk result (λ r. r.exprs ≡ place_items (places_of sources.now) items.now) }
    ensures stop { IfErr result (λ e. (k : FaultKind) → e ≡ stop.Fault k → check_items (scope_in sources.now) [] items.now ≡ Err k) }
{
    let mut names = Names::new(alloc);
    let mut exprs = Items::new(alloc);
    let mut columns = Vec::new(alloc);
    for item in items {
        let bound = bind_expr(alloc, sources, &item.expr)?;
        if !names.add(alloc, &item.name)? {
            return Err(Stop::Fault(FaultKind::Twice));
        }
        exprs.push(bound.expr)?;
        columns.push(Column {
            name: item.name.copy(alloc)?,
            kind: bound.kind,
        })?;
    }
    Ok(BoundItems { exprs, columns })
}
