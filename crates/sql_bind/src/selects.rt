//! One SELECT.

ghost use Rattle.std.specs.Prelude.{◌≡◌, [], Ok, Err, Some, None, IfOk, IfErr, OnOk};
ghost use Rattle.table_meaning.specs.declared.kind.Kind.TheVariants as kind;
ghost use Rattle.sql_rows_meaning.specs.declared.fault.FaultKind.{FaultKind};
ghost use Rattle.sql_rows_meaning.specs.Scopes.{schemas_of};
ghost use Rattle.sql_rows_meaning.specs.Binding.{check_items, check_select};
ghost use Rattle.sql_bind_laws.specs.Places.{places_of, seen_of, first_sources, all_sources, place_from, place_joins, place_items, place_condition, place_keys, place_core};
ghost use Rattle.sql_bind_names.specs.Newest.{scope_in};
ghost use Rattle.sql_bind_names.specs.declared.stop.Stop.TheVariants as stop;
ghost use Rattle.sql_bind.specs.Parts.{check_sources, check_front, check_rest};

use crate::items::bind_items;
use crate::rest::{bind_condition, bind_keys, same_columns};
use crate::sources::{bind_from, bind_joins};
use sql_bind_meaning::{BoundCore, BoundExpr, BoundJoin};
use sql_bind_names::{Known, Sources, Stop};
use sql_meaning::Core;
use sql_rows_meaning::FaultKind;
use sqlite_items::Items;
use std::alloc::Global;
use table_meaning::Column;

/// The sources and the items of a SELECT.
#[derive(Drop)]
struct Front<'a> {
    from: Option<usize>,
    sources: Sources<'a>,
    joins: Items<BoundJoin>,
    items: Items<BoundExpr>,
    columns: Vec<Column>,
}

/// A SELECT with places, and the columns of its rows.
#[derive(Drop)]
pub(crate) struct Select {
    pub(crate) core: BoundCore,
    pub(crate) columns: Vec<Column>,
}

#[tactic(auto, using(crate::proofs::SelectSteps::front_paths))]
fn bind_front<'a>(alloc: Global, known: &'a Known, core: &Core) -> Result<Front<'a>, Stop>
    ensures seen { IfOk result (λ r. check_sources (schemas_of known.now) core.now ≡ Ok (seen_of r.sources)) }
    ensures sources { IfOk result (λ r. r.sources ≡ all_sources known.now (first_sources known.now core.now.from) core.now.joins) }
    ensures from { IfOk result (λ r. r.from ≡ place_from known.now core.now.from) }
    ensures joins { IfOk result (λ r. r.joins ≡ place_joins known.now (first_sources known.now core.now.from) core.now.joins) }
    ensures items { IfOk result (λ r. r.items ≡ place_items (places_of r.sources) core.now.items) }
    ensures columns { IfOk result (λ r. check_items (scope_in r.sources) [] core.now.items ≡ Ok r.columns.items) }
    ensures stop { IfErr result (λ e. (k : FaultKind) → e ≡ stop.Fault k → check_front (schemas_of known.now) core.now ≡ Err k) }
{
    let first = bind_from(alloc, known, &core.from)?;
    let joined = bind_joins(alloc, known, first.sources, core.joins.as_slice())?;
    let items = bind_items(alloc, &joined.sources, core.items.as_slice())?;
    Ok(Front {
        from: first.from,
        sources: joined.sources,
        joins: joined.joins,
        items: items.exprs,
        columns: items.columns,
    })
}

// The SELECT behind its front.
#[tactic(auto, using(crate::proofs::SourceSteps::rest_rules))]
fn finish(alloc: Global, front: Front<'_>, core: &Core) -> Result<Select, Stop>
    ensures fine { OnOk result (check_rest (scope_in front.entry.sources) core.now ≡ Ok kind.Truth) }
    ensures placed { IfOk result (λ r. r.core ≡ record {
      distinct = core.now.distinct;
      items = front.entry.items;
      from = front.entry.from;
      joins = front.entry.joins;
      condition = place_condition (places_of front.entry.sources) core.now.condition;
      keys = place_keys (places_of front.entry.sources) core.now.keys;
      most = core.now.most;
      skip = core.now.skip;
    }) }
    ensures columns { IfOk result (λ r. r.columns.items ≡ front.entry.columns.items) }
    ensures stop { IfErr result (λ e. (k : FaultKind) → e ≡ stop.Fault k → check_rest (scope_in front.entry.sources) core.now ≡ Err k) }
{
    let condition = bind_condition(alloc, &front.sources, &core.condition)?;
    let keys = bind_keys(alloc, &front.sources, core.keys.as_slice())?;
    Ok(Select {
        core: BoundCore {
            distinct: core.distinct,
            items: front.items,
            from: front.from,
            joins: front.joins,
            condition,
            keys,
            most: core.most,
            skip: core.skip,
        },
        columns: front.columns,
    })
}

/// The first SELECT of a body.
#[tactic(auto, using(crate::proofs::SelectSteps::select_paths))]
pub(crate) fn bind_first(alloc: Global, known: &Known, core: &Core) -> Result<Select, Stop>
    ensures fine { IfOk result (λ r. check_select (schemas_of known.now) None core.now ≡ Ok r.columns.items) }
    ensures placed { IfOk result (λ r. r.core ≡ place_core known.now core.now) }
    ensures stop { IfErr result (λ e. (k : FaultKind) → e ≡ stop.Fault k → check_select (schemas_of known.now) None core.now ≡ Err k) }
{
    let front = bind_front(alloc, known, core)?;
    finish(alloc, front, core)
}

/// A later SELECT of a union, whose columns are to be like those of the first.
#[tactic(auto, using(crate::proofs::SelectSteps::select_paths))]
pub(crate) fn bind_like(
    alloc: Global,
    known: &Known,
    first: &[Column],
    core: &Core,
) -> Result<Select, Stop>
    ensures fine { IfOk result (λ r. check_select (schemas_of known.now) (Some first.now) core.now ≡ Ok r.columns.items) }
    ensures placed { IfOk result (λ r. r.core ≡ place_core known.now core.now) }
    ensures stop { IfErr result (λ e. (k : FaultKind) → e ≡ stop.Fault k → check_select (schemas_of known.now) (Some first.now) core.now ≡ Err k) }
{
    let front = bind_front(alloc, known, core)?;
    if !same_columns(first, &front.columns) {
        return Err(Stop::Fault(FaultKind::KindClash));
    }
    finish(alloc, front, core)
}
