//! The SELECTs of Join, LeftJoin and Union.

ghost use Rattle.std.specs.Prelude.{◌≡◌, ◌∷◌, [], IfOk};
ghost use Rattle.sql_gen_step_laws.specs.StepSelects.{left_alias, right_alias, join_core, project_core, union_body};
ghost use Rattle.sql_gen_numbered_meaning.specs.Numbered.{single_core};
ghost use Rattle.sql_gen_steps.specs.PlainCore.{plain_core};

use crate::exprs::{LEFT, RIGHT, shared_tests};
use crate::items::{merged_items, ones, own_items};
use crate::variables::both;
use query_meaning::VarId;
use rdf_meaning::text_of;
use sql_meaning::{Body, Core, Item, JoinTo, Source, SqlExpr};
use sqlite_items::Items;
use std::alloc::{AllocError, Global};

/// A step whose rows carry solutions: its name, and its variables.
#[derive(Clone, Copy)]
pub struct Carrier<'a> {
    pub name: &'a str,
    pub variables: &'a [VarId],
}

/// A step or a table under an alias.
pub(crate) fn source(alloc: Global, table: &str, alias: &str) -> Result<Source, AllocError>
    ensures { IfOk result (λ s. s ≡ record { table = table.now; alias = alias.now }) }
{
    Ok(Source {
        table: text_of(alloc, table)?,
        alias: text_of(alloc, alias)?,
    })
}

/// A SELECT's first step, under its alias.
pub fn first_source(alloc: Global, table: &str) -> Result<Source, AllocError>
    ensures { IfOk result (λ s. s ≡ record { table = table.now; alias = left_alias }) }
{
    source(alloc, table, LEFT)
}

/// A SELECT from a step, without DISTINCT, keys and counts.
pub(crate) fn plain_core(
    alloc: Global,
    items: Items<Item>,
    from: &str,
    joins: Items<JoinTo>,
    condition: Option<SqlExpr>,
) -> Result<Core, AllocError>
    ensures { IfOk result (λ c. c ≡ plain_core items from.now joins condition) }
{
    Ok(Core {
        distinct: false,
        items,
        from: Some(first_source(alloc, from)?),
        joins,
        condition,
        keys: Items::new(alloc),
        most: None,
        skip: None,
    })
}

/// One join, of a step under the second alias.
pub(crate) fn one_join(
    alloc: Global,
    left: bool,
    table: &str,
    on: SqlExpr,
) -> Result<Items<JoinTo>, AllocError>
    ensures { IfOk result (λ js. js ≡ record { left = left; source = record { table = table.now; alias = right_alias }; on = on } ∷ []) }
{
    let mut joins = Items::new(alloc);
    joins.push(JoinTo {
        left,
        source: source(alloc, table, RIGHT)?,
        on,
    })?;
    Ok(joins)
}

/// The SELECT of a group without patterns: one row that binds nothing (SPARQL 1.1 Query, section 18.5, the empty basic
/// graph pattern). It refuses for want of memory alone.
pub fn single_core(alloc: Global) -> Result<Core, AllocError>
    ensures { IfOk result (λ c. c ≡ single_core) }
{
    Ok(Core {
        distinct: false,
        items: ones(alloc)?,
        from: None,
        joins: Items::new(alloc),
        condition: None,
        keys: Items::new(alloc),
        most: None,
        skip: None,
    })
}

/// The SELECT of a Join, or of a LeftJoin without a condition, of two steps (SPARQL 1.1 Query, section 18.5, Join and
/// LeftJoin). Variables that both sides are certain to bind are joined by plain equality. It refuses for want of memory
/// alone.
pub fn join_core(
    alloc: Global,
    left: bool,
    first: Carrier,
    second: Carrier,
    certain: &[VarId],
) -> Result<Core, AllocError>
    ensures { IfOk result (λ c. c ≡ join_core left first.entry.name.now second.entry.name.now first.entry.variables.now second.entry.variables.now certain.now) }
{
    let all = both(alloc, first.variables, second.variables)?;
    let items = merged_items(alloc, first.variables, second.variables, &all)?;
    let on = shared_tests(alloc, first.variables, second.variables, certain)?;
    let joins = one_join(alloc, left, second.name, on)?;
    plain_core(alloc, items, first.name, joins, None)
}

/// The rows of a step with the columns of these variables.
pub(crate) fn project_core(alloc: Global, step: Carrier, all: &[VarId]) -> Result<Core, AllocError>
    ensures { IfOk result (λ c. c ≡ project_core step.entry.name.now step.entry.variables.now all.now) }
{
    let items = own_items(alloc, step.variables, all)?;
    plain_core(alloc, items, step.name, Items::new(alloc), None)
}

/// The body of a Union of two steps (SPARQL 1.1 Query, section 18.5, Union): the rows of both, with the columns of both.
/// It refuses for want of memory alone.
pub fn union_body(alloc: Global, first: Carrier, second: Carrier) -> Result<Body, AllocError>
    ensures { IfOk result (λ b. b ≡ union_body first.entry.name.now second.entry.name.now first.entry.variables.now second.entry.variables.now) }
{
    let all = both(alloc, first.variables, second.variables)?;
    let mut cores = Items::new(alloc);
    cores.push(project_core(alloc, first, &all)?)?;
    cores.push(project_core(alloc, second, &all)?)?;
    Ok(Body { cores })
}
