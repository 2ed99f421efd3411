//! Expressions over the columns of steps.

ghost use Rattle.std.specs.Prelude.{◌≡◌, ◌∷◌, [], map, IfOk};
ghost use Rattle.table_meaning.specs.declared.kind.Kind.TheVariants as kind;
ghost use Rattle.sql_meaning.specs.declared.expression.SqlExpr.TheVariants as sql;
ghost use Rattle.sql_gen_step_laws.specs.StepSelects.{left_alias, right_alias, cell_of, every, equal_sql, agree_sql, shared_sql, shared, merged_sql, own_sql};

use crate::names::column;
use crate::variables::has;
use query_meaning::VarId;
use rdf_meaning::text_of;
use sql_meaning::SqlExpr;
use sqlite_items::{Boxed, Items};
use std::alloc::{AllocError, Global};
use table_meaning::Kind;

/// The alias of a SELECT's first step.
pub(crate) const LEFT: &str = "a";

/// The alias of its second step.
pub(crate) const RIGHT: &str = "b";

pub(crate) fn equal(alloc: Global, left: SqlExpr, right: SqlExpr) -> Result<SqlExpr, AllocError>
    ensures { IfOk result (λ e. e ≡ sql.Equal left right) }
{
    let left = Boxed::new(alloc, left)?;
    Ok(SqlExpr::Equal(left, Boxed::new(alloc, right)?))
}

pub(crate) fn is_null(alloc: Global, part: SqlExpr) -> Result<SqlExpr, AllocError>
    ensures { IfOk result (λ e. e ≡ sql.IsNull part) }
{
    Ok(SqlExpr::IsNull(Boxed::new(alloc, part)?))
}

/// AND of any number of parts.
pub(crate) fn every(mut parts: Items<SqlExpr>) -> SqlExpr
    ensures { result ≡ every parts }
{
    if parts.len() > 1 {
        return SqlExpr::All(parts);
    }
    match parts.pop() {
        Some(part) => part,
        None => SqlExpr::Truth(true),
    }
}

/// The cell of a variable, of the step with an alias.
pub(crate) fn cell(alloc: Global, alias: &str, v: VarId) -> Result<SqlExpr, AllocError>
    ensures { IfOk result (λ e. e ≡ cell_of alias.now v) }
{
    let alias = text_of(alloc, alias)?;
    Ok(SqlExpr::Name(alias, column(alloc, v)?))
}

/// A null id.
pub(crate) fn null() -> SqlExpr
    ensures { result ≡ sql.Null kind.Int }
{
    SqlExpr::Null(Kind::Int)
}

/// Both steps have this id for a variable.
fn equal_cells(alloc: Global, v: VarId) -> Result<SqlExpr, AllocError>
    ensures { IfOk result (λ e. e ≡ equal_sql v) }
{
    let left = cell(alloc, LEFT, v)?;
    equal(alloc, left, cell(alloc, RIGHT, v)?)
}

/// Both steps have this id for a variable, or one of them has none (SPARQL 1.1 Query, section 18.3, compatible mappings).
fn agreeing_cells(alloc: Global, v: VarId) -> Result<SqlExpr, AllocError>
    ensures { IfOk result (λ e. e ≡ agree_sql v) }
{
    let mut parts = Items::new(alloc);
    parts.push(equal_cells(alloc, v)?)?;
    parts.push(is_null(alloc, cell(alloc, LEFT, v)?)?)?;
    parts.push(is_null(alloc, cell(alloc, RIGHT, v)?)?)?;
    Ok(SqlExpr::Any(parts))
}

/// The test of a shared variable: plain equality where both sides are certain to bind it.
fn shared_test(alloc: Global, certain: &[VarId], v: VarId) -> Result<SqlExpr, AllocError>
    ensures { IfOk result (λ e. e ≡ shared_sql certain.now v) }
{
    if has(certain, v) {
        equal_cells(alloc, v)
    } else {
        agreeing_cells(alloc, v)
    }
}

/// The condition of a join: each shared variable agrees.
pub(crate) fn shared_tests(
    alloc: Global,
    left: &[VarId],
    right: &[VarId],
    certain: &[VarId],
) -> Result<SqlExpr, AllocError>
    ensures { IfOk result (λ e. e ≡ every (map (shared_sql certain.now) (shared left.now right.now))) }
{
    let mut tests = Items::new(alloc);
    for &v in right {
        if has(left, v) {
            tests.push(shared_test(alloc, certain, v)?)?;
        }
    }
    Ok(every(tests))
}

/// A variable of either side: the left one's id, or the right one's where the left one has none.
pub(crate) fn merged(
    alloc: Global,
    left: &[VarId],
    right: &[VarId],
    v: VarId,
) -> Result<SqlExpr, AllocError>
    ensures { IfOk result (λ e. e ≡ merged_sql left.now right.now v) }
{
    if !has(left, v) {
        return cell(alloc, RIGHT, v);
    }
    let mine = cell(alloc, LEFT, v)?;
    if !has(right, v) {
        return Ok(mine);
    }
    let mut parts = Items::new(alloc);
    parts.push(mine)?;
    parts.push(cell(alloc, RIGHT, v)?)?;
    Ok(SqlExpr::First(parts))
}

/// A variable's id, or null where the step hasn't the variable.
pub(crate) fn own(alloc: Global, variables: &[VarId], v: VarId) -> Result<SqlExpr, AllocError>
    ensures { IfOk result (λ e. e ≡ own_sql variables.now v) }
{
    if has(variables, v) {
        cell(alloc, LEFT, v)
    } else {
        Ok(null())
    }
}
