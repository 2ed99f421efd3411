//! Tests of two values.

ghost use Rattle.std.specs.Prelude.{◌≡◌, [], ◌∷◌, List, ℕ, true, map, IfOk};
ghost use Rattle.std.specs.List.{list_all};
ghost use Rattle.sql_meaning.specs.declared.expression.SqlExpr.TheVariants as sql;
ghost use Rattle.sql_gen_filter_meaning.specs.Columns.{branch};
ghost use Rattle.sql_gen_filter_meaning.specs.Chains.{chain_value, value_sql};
ghost use Rattle.sql_gen_filter_meaning.specs.Tests.{both_in, some_error, both_literals, same_sql, equal_sql, less_sql, compare_sql, classes_by_number, classes_by_text, some_of, null_truth};
ghost use Rattle.sql_gen_filter_form_laws.specs.Written.{is_written_value};

use crate::kinds::{class_in, is_literal, null_truth};
use query_meaning::{CompareOp, ValueExpr};
use sql_gen_expressions::{both, either, equal, is_null, less, negation};
use sql_gen_filter_values::{ValueChain, any_of, value_chain};
use sql_meaning::{Branch, SqlExpr};
use sqlite_items::{Boxed, Items};
use std::alloc::{AllocError, Global};

fn same_class(alloc: Global, a: &ValueChain, b: &ValueChain) -> Result<SqlExpr, AllocError>
    ensures { IfOk result (λ x. x ≡ sql.Equal (chain_value a.now).class (chain_value b.now).class) }
{
    let left = a.class(alloc)?;
    equal(alloc, left, b.class(alloc)?)
}

fn same_text(alloc: Global, a: &ValueChain, b: &ValueChain) -> Result<SqlExpr, AllocError>
    ensures { IfOk result (λ x. x ≡ sql.Equal (chain_value a.now).text (chain_value b.now).text) }
{
    let left = a.text(alloc)?;
    equal(alloc, left, b.text(alloc)?)
}

fn same_aux(alloc: Global, a: &ValueChain, b: &ValueChain) -> Result<SqlExpr, AllocError>
    ensures { IfOk result (λ x. x ≡ sql.Equal (chain_value a.now).aux (chain_value b.now).aux) }
{
    let left = a.aux(alloc)?;
    equal(alloc, left, b.aux(alloc)?)
}

/// Whether two values are the same term: it has one class, one text, and one tag or datatype.
pub(crate) fn same_term(
    alloc: Global,
    a: &ValueChain,
    b: &ValueChain,
) -> Result<SqlExpr, AllocError>
    ensures { IfOk result (λ x. x ≡ same_sql (chain_value a.now) (chain_value b.now)) }
{
    let mut parts = Items::new(alloc);
    parts.push(same_class(alloc, a, b)?)?;
    parts.push(same_text(alloc, a, b)?)?;
    parts.push(same_aux(alloc, a, b)?)?;
    Ok(SqlExpr::All(parts))
}

// Both are of one class, which is one of these.
fn both_in(
    alloc: Global,
    classes: &[u32],
    a: &ValueChain,
    b: &ValueChain,
) -> Result<SqlExpr, AllocError>
    ensures { IfOk result (λ x. x ≡ both_in classes.now (chain_value a.now) (chain_value b.now)) }
{
    let one_class = same_class(alloc, a, b)?;
    both(alloc, one_class, class_in(alloc, a, classes)?)
}

fn some_error(alloc: Global, a: &ValueChain, b: &ValueChain) -> Result<Branch, AllocError>
    ensures { IfOk result (λ x. x ≡ branch (some_error (chain_value a.now) (chain_value b.now)) null_truth) }
{
    let left = is_null(alloc, a.class(alloc)?)?;
    let right = is_null(alloc, b.class(alloc)?)?;
    let test = either(alloc, left, right)?;
    let value = null_truth(alloc)?;
    Ok(Branch { test, value })
}

fn both_literals(alloc: Global, a: &ValueChain, b: &ValueChain) -> Result<Branch, AllocError>
    ensures { IfOk result (λ x. x ≡ branch (both_literals (chain_value a.now) (chain_value b.now)) null_truth) }
{
    let left = is_literal(alloc, a)?;
    let test = both(alloc, left, is_literal(alloc, b)?)?;
    let value = null_truth(alloc)?;
    Ok(Branch { test, value })
}

fn equal_numbers(alloc: Global, a: &ValueChain, b: &ValueChain) -> Result<Branch, AllocError>
    ensures { IfOk result (λ x. x ≡ branch (both_in classes_by_number (chain_value a.now) (chain_value b.now)) (sql.Equal (chain_value a.now).number (chain_value b.now).number)) }
{
    let test = both_in(alloc, &[3, 4, 9], a, b)?;
    let left = a.number(alloc)?;
    let value = equal(alloc, left, b.number(alloc)?)?;
    Ok(Branch { test, value })
}

fn equal_texts(alloc: Global, a: &ValueChain, b: &ValueChain) -> Result<Branch, AllocError>
    ensures { IfOk result (λ x. x ≡ branch (both_in classes_by_text (chain_value a.now) (chain_value b.now)) (sql.Equal (chain_value a.now).text (chain_value b.now).text)) }
{
    let test = both_in(alloc, &[5], a, b)?;
    let value = same_text(alloc, a, b)?;
    Ok(Branch { test, value })
}

fn lesser_number(alloc: Global, a: &ValueChain, b: &ValueChain) -> Result<Branch, AllocError>
    ensures { IfOk result (λ x. x ≡ branch (both_in classes_by_number (chain_value a.now) (chain_value b.now)) (sql.Less (chain_value a.now).number (chain_value b.now).number)) }
{
    let test = both_in(alloc, &[3, 4, 9], a, b)?;
    let left = a.number(alloc)?;
    let value = less(alloc, left, b.number(alloc)?)?;
    Ok(Branch { test, value })
}

fn lesser_text(alloc: Global, a: &ValueChain, b: &ValueChain) -> Result<Branch, AllocError>
    ensures { IfOk result (λ x. x ≡ branch (both_in classes_by_text (chain_value a.now) (chain_value b.now)) (sql.Less (chain_value a.now).text (chain_value b.now).text)) }
{
    let test = both_in(alloc, &[5], a, b)?;
    let left = a.text(alloc)?;
    let value = less(alloc, left, b.text(alloc)?)?;
    Ok(Branch { test, value })
}

/// `=`: an error first, then by value where both are of one class that has values, then by the term; two other literals
/// are an error.
pub(crate) fn equal_values(
    alloc: Global,
    a: &ValueChain,
    b: &ValueChain,
) -> Result<SqlExpr, AllocError>
    ensures { IfOk result (λ x. x ≡ equal_sql (chain_value a.now) (chain_value b.now)) }
{
    let mut branches = Items::new(alloc);
    branches.push(some_error(alloc, a, b)?)?;
    branches.push(equal_numbers(alloc, a, b)?)?;
    branches.push(equal_texts(alloc, a, b)?)?;
    branches.push(Branch {
        test: same_term(alloc, a, b)?,
        value: SqlExpr::Truth(true),
    })?;
    branches.push(both_literals(alloc, a, b)?)?;
    Ok(SqlExpr::Case(branches, Boxed::new(alloc, SqlExpr::Truth(false))?))
}

/// `<`: by value where both are of one class that has values, else an error.
fn less_values(alloc: Global, a: &ValueChain, b: &ValueChain) -> Result<SqlExpr, AllocError>
    ensures { IfOk result (λ x. x ≡ less_sql (chain_value a.now) (chain_value b.now)) }
{
    let mut branches = Items::new(alloc);
    branches.push(lesser_number(alloc, a, b)?)?;
    branches.push(lesser_text(alloc, a, b)?)?;
    Ok(SqlExpr::Case(branches, Boxed::new(alloc, null_truth(alloc)?)?))
}

/// A comparison; an error stays one under a negation.
pub(crate) fn compare(
    alloc: Global,
    op: CompareOp,
    a: &ValueChain,
    b: &ValueChain,
) -> Result<SqlExpr, AllocError>
    ensures { IfOk result (λ x. x ≡ compare_sql op (chain_value a.now) (chain_value b.now)) }
{
    match op {
        CompareOp::Equal => equal_values(alloc, a, b),
        CompareOp::NotEqual => negation(alloc, equal_values(alloc, a, b)?),
        CompareOp::Less => less_values(alloc, a, b),
        CompareOp::Greater => less_values(alloc, b, a),
        CompareOp::LessEqual => negation(alloc, less_values(alloc, b, a)?),
        CompareOp::GreaterEqual => negation(alloc, less_values(alloc, a, b)?),
    }
}

/// Whether a value is one of others.
pub(crate) fn one_of(
    alloc: Global,
    a: &ValueChain,
    others: &[ValueExpr],
) -> Result<SqlExpr, AllocError>
    ensures value { IfOk result (λ x. x ≡ some_of (map (λ d. equal_sql (chain_value a.now) (value_sql d)) others.now)) }
    ensures written { IfOk result (λ x. list_all is_written_value others.now ≡ true) }
{
    let mut parts = Vec::new(alloc);
    for other in others {
        let b = value_chain(other);
        parts.push(equal_values(alloc, a, &b)?)?;
    }
    Ok(any_of(parts))
}
