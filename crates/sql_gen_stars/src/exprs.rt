//! Expressions over the columns of tables and of the step before.

ghost use Rattle.std.specs.Prelude.{◌≡◌, ◌<◌, ◌∷◌, [], pos, IfOk};
ghost use Rattle.sql_meaning.specs.declared.expression.SqlExpr.TheVariants as sql;
ghost use Rattle.sql_gen_step_laws.specs.StepSelects.{left_alias, cell_of};
ghost use Rattle.sql_gen_star_meaning.specs.StarSelects.{star_alias, where_every, entry_sql, kept_sql};
ghost use Rattle.sql_gen_star_meaning.specs.PairSelects.{pred_sql, val_sql};

use crate::names::{cell_column, column, pred_column, val_column};
use query_meaning::VarId;
use rdf_meaning::{Text, text_of};
use sql_meaning::SqlExpr;
use sqlite_items::{Boxed, Items};
use std::alloc::{AllocError, Global};

/// The alias of the primary table.
pub(crate) const PRIMARY: &str = "h";

/// The alias of the table of lists.
pub(crate) const LISTS: &str = "d";

/// The alias of the step before.
pub(crate) const BEFORE: &str = "a";

pub(crate) fn named(alloc: Global, alias: &str, column: Text) -> Result<SqlExpr, AllocError>
    ensures { IfOk result (λ e. e ≡ sql.Name alias.now column) }
{
    Ok(SqlExpr::Name(text_of(alloc, alias)?, column))
}

pub(crate) fn int(number: u32) -> SqlExpr
    ensures { result ≡ sql.Int (pos number) }
{
    SqlExpr::Int(i128::from(number))
}

pub(crate) fn equal(alloc: Global, left: SqlExpr, right: SqlExpr) -> Result<SqlExpr, AllocError>
    ensures { IfOk result (λ e. e ≡ sql.Equal left right) }
{
    let left = Boxed::new(alloc, left)?;
    Ok(SqlExpr::Equal(left, Boxed::new(alloc, right)?))
}

/// NOT and IS NULL.
pub(crate) fn is_there(alloc: Global, part: SqlExpr) -> Result<SqlExpr, AllocError>
    ensures { IfOk result (λ e. e ≡ sql.Not (sql.IsNull part)) }
{
    let null = SqlExpr::IsNull(Boxed::new(alloc, part)?);
    Ok(SqlExpr::Not(Boxed::new(alloc, null)?))
}

/// WHERE with all of these tests, or no WHERE.
pub(crate) fn where_every(mut tests: Items<SqlExpr>) -> Option<SqlExpr>
    ensures { result ≡ where_every tests }
{
    if tests.len() > 1 {
        return Some(SqlExpr::All(tests));
    }
    tests.pop()
}

/// The entity of a row of the primary table.
pub(crate) fn entry(alloc: Global) -> Result<SqlExpr, AllocError>
    ensures { IfOk result (λ e. e ≡ entry_sql) }
{
    named(alloc, PRIMARY, text_of(alloc, "entry")?)
}

/// The predicate of a pair.
pub(crate) fn pred(alloc: Global, pair: u32) -> Result<SqlExpr, AllocError>
    ensures { IfOk result (λ e. e ≡ pred_sql pair) }
{
    named(alloc, PRIMARY, pred_column(alloc, pair)?)
}

/// The value of a pair.
pub(crate) fn val(alloc: Global, pair: u32) -> Result<SqlExpr, AllocError>
    ensures { IfOk result (λ e. e ≡ val_sql pair 0) }
{
    named(alloc, PRIMARY, val_column(alloc, pair)?)
}

/// The column of a variable in the step before.
pub(crate) fn bound(alloc: Global, v: VarId) -> Result<SqlExpr, AllocError>
    ensures { IfOk result (λ e. e ≡ cell_of left_alias v) }
{
    named(alloc, BEFORE, column(alloc, v)?)
}

/// The cell of an arm in the step before.
pub(crate) fn kept(alloc: Global, arm: u32) -> Result<SqlExpr, AllocError>
    requires { arm < 100 }
    ensures { IfOk result (λ e. e ≡ kept_sql arm) }
{
    named(alloc, BEFORE, cell_column(alloc, arm)?)
}
