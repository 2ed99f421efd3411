//! The script of a query over a store.

ghost use Rattle.std.specs.Prelude.{◌≡◌, IfOk};
ghost use Rattle.layout_standing_meaning.specs.Stored.{layout_of, tables_of, stored_triples};
ghost use Rattle.query_flow_meaning.specs.Planned.{planned};
ghost use Rattle.sparql_query_meaning.specs.Fragment.{OfFragment};
ghost use Rattle.sql_gen_meaning.specs.Compilable.{AreColumns};
ghost use Rattle.run_show_meaning.specs.Scripts.{IsScriptFor};

use exec_tree::plan_query;
use pred_columns::{Columns, Counts};
use query_meaning::Query;
use query_plan_meaning::Plan;
use rdf_layout::Store;
use sparql_constants::constants;
use sql_gen::compile;
use sql_gen_plan_laws::{fragment_plans_come_from_queries, planned_plans_are_compilable};
use sql_meaning::Script;
use std::alloc::{AllocError, Global};

// Columns have candidates for each predicate, all of them among the columns.
fn know_columns(columns: &Columns)
    ensures { AreColumns columns.now }
{
    let _ = columns.count();
}

// No store counts as many triples as there are numbers of 64 bits, so this is no refusal that comes.
fn plan_of(alloc: Global, query: &Query, counts: &Counts) -> Result<Plan, AllocError>
    ensures { IfOk result (λ plan. plan ≡ planned counts.now query.now) }
{
    if counts.triples == u64::MAX {
        return Err(AllocError);
    }
    plan_query(alloc, query, counts)
}

/// The script of a query over the tables of a store: the query is planned by the flow of its leaves over what the store
/// counts, and compiled with the facts of the layout and the ids of its constants.
///
/// # Errors
///
/// Want of memory.
pub fn query_script(alloc: Global, store: &Store, query: &Query) -> Result<Script, AllocError>
    requires { OfFragment query.now }
    ensures { IfOk result (IsScriptFor (layout_of store.now) (tables_of store.now) (stored_triples store.now) query.now) }
{
    planned_plans_are_compilable();
    fragment_plans_come_from_queries();
    let terms = constants(alloc, query)?;
    let ids = store.ids(alloc, &terms)?;
    let facts = store.facts(alloc, &terms)?;
    let counts = store.counts(alloc, &terms)?;
    let plan = plan_of(alloc, query, &counts)?;
    know_columns(&facts.direct);
    know_columns(&facts.reverse);
    compile(alloc, &plan, &facts, &ids)
}
