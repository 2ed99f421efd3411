//! What stands behind the items of a SELECT, and the columns of a union.

ghost use Rattle.std.specs.Prelude.{◌≡◌, ◌&&◌, Ok, Err, IfOk, IfErr, OnOk};
ghost use Rattle.std.specs.Str.{bytes_eq};
ghost use Rattle.table_meaning.specs.declared.kind.Kind.TheVariants as kind;
ghost use Rattle.sql_rows_meaning.specs.declared.fault.FaultKind.{FaultKind};
ghost use Rattle.sql_rows_meaning.specs.Binding.{check_where, check_keys, same_columns};
ghost use Rattle.sql_rows_meaning.specs.Checks as checks;
ghost use Rattle.sql_bind_laws.specs.Places.{places_of, place_condition, place_keys};
ghost use Rattle.sql_bind_names.specs.Newest.{scope_in};
ghost use Rattle.sql_bind_names.specs.declared.stop.Stop.TheVariants as stop;

use sql_bind_expressions::{bind_expr, bind_truth, same_kind};
use sql_bind_meaning::{BoundExpr, BoundKey};
use sql_bind_names::{Sources, Stop};
use sql_meaning::{SqlExpr, SqlKey};
use sqlite_items::Items;
use std::alloc::Global;
use table_meaning::Column;

/// The condition of WHERE.
pub(crate) fn bind_condition(
    alloc: Global,
    sources: &Sources<'_>,
    condition: &Option<SqlExpr>,
) -> Result<Option<BoundExpr>, Stop>
    ensures fine { OnOk result (check_where (scope_in sources.now) condition.now ≡ Ok kind.Truth) }
    ensures condition { IfOk result (λ r. r ≡ place_condition (places_of sources.now) condition.now) }
    ensures stop { IfErr result (λ e. (k : FaultKind) → e ≡ stop.Fault k → check_where (scope_in sources.now) condition.now ≡ Err k) }
{
    match condition {
        Some(condition) => Ok(Some(bind_truth(alloc, sources, condition)?)),
        None => Ok(None),
    }
}

/// The keys of ORDER BY.
#[tactic(auto, using(crate::proofs::KeySteps::steps))]
pub(crate) fn bind_keys(
    alloc: Global,
    sources: &Sources<'_>,
    keys: &[SqlKey],
) -> Result<Items<BoundKey>, Stop>
    ensures fine { OnOk result (check_keys (scope_in sources.now) keys.now ≡ Ok kind.Truth) }
    ensures keys { IfOk result (λ r. r ≡ place_keys (places_of sources.now) keys.now) }
    ensures stop { IfErr result (λ e. (k : FaultKind) → e ≡ stop.Fault k → check_keys (scope_in sources.now) keys.now ≡ Err k) }
{
    let mut bound = Items::new(alloc);
    for key in keys {
        let typed = bind_expr(alloc, sources, &key.expr)?;
        bound.push(BoundKey {
            expr: typed.expr,
            down: key.down,
        })?;
    }
    Ok(bound)
}

fn same_column(a: &Column, b: &Column) -> bool
    ensures { result ≡ (bytes_eq a.now.name b.now.name && checks.same_kind a.now.kind b.now.kind) }
{
    a.name == b.name && same_kind(a.kind, b.kind)
}

/// Whether columns have the same names and kinds, in order.
#[tactic(auto, using(crate::proofs::SelectSteps::column_steps))]
pub(crate) fn same_columns(a: &[Column], b: &[Column]) -> bool
    ensures { result ≡ same_columns a.now b.now }
{
    if a.len() != b.len() {
        return false;
    }
    for at in 0..a.len() {
        if !same_column(&a[at], &b[at]) {
            return false;
        }
    }
    true
}
