//! Tests of one value.

ghost use Rattle.std.specs.Prelude.{◌≡◌, pos, [], ◌∷◌, IfOk};
ghost use Rattle.sql_meaning.specs.declared.expression.SqlExpr.TheVariants as sql;
ghost use Rattle.sql_gen_filter_meaning.specs.Columns.{branch, class_is, literal_sql};
ghost use Rattle.sql_gen_filter_meaning.specs.Chains.{chain_value};
ghost use Rattle.sql_gen_filter_meaning.specs.Tests.{null_truth, class_in, kind_sql, effective_sql, bound_sql};

use query_meaning::{TermTest, VarId};
use sql_gen_expressions::{equal, int, is_null, less, negation, term_column, text};
use sql_gen_filter_values::{ValueChain, any_of};
use sql_meaning::{Branch, SqlExpr};
use sqlite_items::{Boxed, Items};
use std::alloc::{AllocError, Global};
use table_meaning::Kind;

/// Null as a truth, of a form that engines without a kind of truths take too.
pub(crate) fn null_truth(alloc: Global) -> Result<SqlExpr, AllocError>
    ensures { IfOk result (λ x. x ≡ null_truth) }
{
    equal(alloc, SqlExpr::Null(Kind::Int), int(0))
}

fn class_is(alloc: Global, a: &ValueChain, class: u32) -> Result<SqlExpr, AllocError>
    ensures { IfOk result (λ x. x ≡ class_is (chain_value a.now).class class) }
{
    equal(alloc, a.class(alloc)?, int(class))
}

/// The class is one of these.
pub(crate) fn class_in(
    alloc: Global,
    a: &ValueChain,
    classes: &[u32],
) -> Result<SqlExpr, AllocError>
    ensures { IfOk result (λ x. x ≡ class_in classes.now (chain_value a.now).class) }
{
    let mut parts = Vec::new(alloc);
    for class in classes {
        parts.push(class_is(alloc, a, *class)?)?;
    }
    Ok(any_of(parts))
}

/// The classes of literals are above 2.
pub(crate) fn is_literal(alloc: Global, a: &ValueChain) -> Result<SqlExpr, AllocError>
    ensures { IfOk result (λ x. x ≡ literal_sql (chain_value a.now)) }
{
    less(alloc, int(2), a.class(alloc)?)
}

/// Whether a value is an IRI, a blank node or a literal.
pub(crate) fn is_kind(alloc: Global, test: TermTest, a: &ValueChain) -> Result<SqlExpr, AllocError>
    ensures { IfOk result (λ x. x ≡ kind_sql test (chain_value a.now)) }
{
    match test {
        TermTest::Iri => class_is(alloc, a, 2),
        TermTest::Blank => class_is(alloc, a, 1),
        TermTest::Literal => is_literal(alloc, a),
    }
}

// A number or a boolean isn't zero.
fn is_nonzero(alloc: Global, a: &ValueChain) -> Result<Branch, AllocError>
    ensures { IfOk result (λ x. x ≡ branch (class_in (3 ∷ 4 ∷ []) (chain_value a.now).class) (sql.Not (sql.Equal (chain_value a.now).number (sql.Int (pos 0))))) }
{
    let test = class_in(alloc, a, &[3, 4])?;
    let zero = equal(alloc, a.number(alloc)?, int(0))?;
    let value = negation(alloc, zero)?;
    Ok(Branch { test, value })
}

// A string or a tagged literal isn't empty.
fn is_not_empty(alloc: Global, a: &ValueChain) -> Result<Branch, AllocError>
    ensures { IfOk result (λ x. x ≡ branch (class_in (5 ∷ 6 ∷ []) (chain_value a.now).class) (sql.Not (sql.Equal (chain_value a.now).text (sql.Text [])))) }
{
    let test = class_in(alloc, a, &[5, 6])?;
    let empty = equal(alloc, a.text(alloc)?, text(alloc, "")?)?;
    let value = negation(alloc, empty)?;
    Ok(Branch { test, value })
}

/// The effective boolean value; a literal out of its datatype's form or range is false.
pub(crate) fn effective(alloc: Global, a: &ValueChain) -> Result<SqlExpr, AllocError>
    ensures { IfOk result (λ x. x ≡ effective_sql (chain_value a.now)) }
{
    let mut branches = Items::new(alloc);
    branches.push(is_nonzero(alloc, a)?)?;
    branches.push(is_not_empty(alloc, a)?)?;
    branches.push(Branch {
        test: class_in(alloc, a, &[8])?,
        value: SqlExpr::Truth(false),
    })?;
    Ok(SqlExpr::Case(branches, Boxed::new(alloc, null_truth(alloc)?)?))
}

/// A variable is bound where it has a class.
pub(crate) fn is_bound(alloc: Global, v: VarId) -> Result<SqlExpr, AllocError>
    ensures { IfOk result (λ x. x ≡ bound_sql v) }
{
    let unbound = is_null(alloc, term_column(alloc, v, "cls")?)?;
    negation(alloc, unbound)
}
