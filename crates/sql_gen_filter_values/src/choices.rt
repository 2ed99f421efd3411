//! Choices by tests.

ghost use Rattle.std.specs.Prelude.{◌≡◌, [], ◌∷◌, IfOk};
ghost use Rattle.table_meaning.specs.declared.kind.Kind.{Kind};
ghost use Rattle.sql_meaning.specs.declared.expression.SqlExpr.TheVariants as sql;
ghost use Rattle.sql_gen_filter_meaning.specs.Columns.{branch, when};
ghost use Rattle.sql_gen_filter_meaning.specs.Tests.{some_of};

use sql_meaning::{Branch, SqlExpr};
use sqlite_items::{Boxed, Items};
use std::alloc::{AllocError, Global};
use table_meaning::Kind;

/// CASE with one branch.
pub(crate) fn choose(
    alloc: Global,
    test: SqlExpr,
    value: SqlExpr,
    last: SqlExpr,
) -> Result<SqlExpr, AllocError>
    ensures { IfOk result (λ x. x ≡ sql.Case (branch test value ∷ []) last) }
{
    let mut branches = Items::new(alloc);
    branches.push(Branch { test, value })?;
    Ok(SqlExpr::Case(branches, Boxed::new(alloc, last)?))
}

/// A value where a test is true, else a null of its kind.
pub(crate) fn when(
    alloc: Global,
    test: SqlExpr,
    value: SqlExpr,
    kind: Kind,
) -> Result<SqlExpr, AllocError>
    ensures { IfOk result (λ x. x ≡ when test value kind) }
{
    choose(alloc, test, value, SqlExpr::Null(kind))
}

/// OR of any number of parts: false of none, and the part itself of one.
pub fn any_of(mut parts: Vec<SqlExpr>) -> SqlExpr
    ensures { result ≡ some_of parts.items }
{
    if parts.len() > 1 {
        return SqlExpr::Any(Items::from_vec(parts));
    }
    parts.pop().unwrap_or(SqlExpr::Truth(false))
}
