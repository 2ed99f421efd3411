//! The SELECT of a Filter.

ghost use Rattle.std.specs.Prelude.{◌≡◌, IfOk};
ghost use Rattle.sql_meaning.specs.declared.expression.SqlExpr.TheVariants as sql;
ghost use Rattle.sql_gen_term_laws.specs.TermTable.{id_name, no_test, own_test, term_alias, term_join, term_joins};
ghost use Rattle.sql_gen_term_laws.specs.Filters.{filter_core};

use crate::exprs::{LEFT, cell, equal};
use crate::items::own_items;
use crate::joins::{Carrier, plain_core};
use crate::names;
use crate::variables::has;
use query_meaning::VarId;
use rdf_meaning::text_of;
use sql_meaning::{Core, JoinTo, Source, SqlExpr};
use sqlite_items::Items;
use std::alloc::{AllocError, Global};

/// A condition over the terms of some variables: the name of the table of terms, the variables, and the condition, in
/// which the terms of a variable stand under `t` and its two digits.
#[derive(Drop)]
pub struct Condition<'a> {
    pub terms: &'a str,
    pub variables: &'a [VarId],
    pub test: SqlExpr,
}

/// The row of the table of terms whose id an expression gives.
fn number_test(alloc: Global, v: VarId, id: SqlExpr) -> Result<SqlExpr, AllocError>
    ensures { IfOk result (λ e. e ≡ sql.Equal (sql.Name (term_alias v) id_name) id) }
{
    let column = SqlExpr::Name(names::term_alias(alloc, v)?, text_of(alloc, "id")?);
    equal(alloc, column, id)
}

/// No row, by a test that still begins with an equality of columns.
fn no_test(alloc: Global, v: VarId) -> Result<SqlExpr, AllocError>
    ensures { IfOk result (λ e. e ≡ no_test v) }
{
    let ones = SqlExpr::Name(text_of(alloc, LEFT)?, text_of(alloc, "one")?);
    let mut parts = Items::new(alloc);
    parts.push(number_test(alloc, v, ones)?)?;
    parts.push(SqlExpr::Truth(false))?;
    Ok(SqlExpr::All(parts))
}

/// The row of a variable's id, or none where the step hasn't the variable.
fn own_test(alloc: Global, variables: &[VarId], v: VarId) -> Result<SqlExpr, AllocError>
    ensures { IfOk result (λ e. e ≡ own_test variables.now v) }
{
    if has(variables, v) {
        number_test(alloc, v, cell(alloc, LEFT, v)?)
    } else {
        no_test(alloc, v)
    }
}

/// A LEFT JOIN with the term of a variable.
fn term_join(
    alloc: Global,
    terms: &str,
    variables: &[VarId],
    v: VarId,
) -> Result<JoinTo, AllocError>
    ensures { IfOk result (λ j. j ≡ term_join terms.now (term_alias v) (own_test variables.now v)) }
{
    Ok(JoinTo {
        left: true,
        source: Source {
            table: text_of(alloc, terms)?,
            alias: names::term_alias(alloc, v)?,
        },
        on: own_test(alloc, variables, v)?,
    })
}

/// One such join for each of the variables that are asked for.
pub fn term_joins(
    alloc: Global,
    terms: &str,
    variables: &[VarId],
    asked: &[VarId],
) -> Result<Items<JoinTo>, AllocError>
    ensures { IfOk result (λ js. js ≡ term_joins terms.now (own_test variables.now) asked.now) }
{
    let mut joins = Items::new(alloc);
    for &v in asked {
        joins.push(term_join(alloc, terms, variables, v)?)?;
    }
    Ok(joins)
}

/// The SELECT of a Filter over a step (SPARQL 1.1 Query, section 18.5, Filter). It refuses for want of memory alone.
pub fn filter_core(alloc: Global, step: Carrier, condition: Condition) -> Result<Core, AllocError>
    ensures { IfOk result (λ c. c ≡ filter_core step.entry.name.now condition.entry.terms.now step.entry.variables.now condition.entry.variables.now condition.entry.test) }
{
    let Condition {
        terms,
        variables,
        test,
    } = condition;
    let items = own_items(alloc, step.variables, step.variables)?;
    let joins = term_joins(alloc, terms, step.variables, variables)?;
    plain_core(alloc, items, step.name, joins, Some(test))
}
