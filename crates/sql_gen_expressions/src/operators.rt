//! Tests and choices.

ghost use Rattle.std.specs.Prelude.{◌≡◌, pos, [], ◌∷◌, IfOk};
ghost use Rattle.sql_meaning.specs.declared.expression.SqlExpr.TheVariants as sql;
ghost use Rattle.sql_gen_step_laws.specs.StepSelects.{every};

use rdf_meaning::text_of;
use sql_meaning::SqlExpr;
use sqlite_items::{Boxed, Items};
use std::alloc::{AllocError, Global};

/// A number.
pub fn int(number: u32) -> SqlExpr
    ensures { result ≡ sql.Int (pos number) }
{
    SqlExpr::Int(i128::from(number))
}

/// A text.
pub fn text(alloc: Global, text: &str) -> Result<SqlExpr, AllocError>
    ensures { IfOk result (λ x. x ≡ sql.Text text.now) }
{
    Ok(SqlExpr::Text(text_of(alloc, text)?))
}

/// `=` of two parts.
pub fn equal(alloc: Global, left: SqlExpr, right: SqlExpr) -> Result<SqlExpr, AllocError>
    ensures { IfOk result (λ x. x ≡ sql.Equal left right) }
{
    let left = Boxed::new(alloc, left)?;
    Ok(SqlExpr::Equal(left, Boxed::new(alloc, right)?))
}

/// `<` of two parts.
pub fn less(alloc: Global, left: SqlExpr, right: SqlExpr) -> Result<SqlExpr, AllocError>
    ensures { IfOk result (λ x. x ≡ sql.Less left right) }
{
    let left = Boxed::new(alloc, left)?;
    Ok(SqlExpr::Less(left, Boxed::new(alloc, right)?))
}

/// NOT of a part.
pub fn negation(alloc: Global, part: SqlExpr) -> Result<SqlExpr, AllocError>
    ensures { IfOk result (λ x. x ≡ sql.Not part) }
{
    Ok(SqlExpr::Not(Boxed::new(alloc, part)?))
}

/// IS NULL of a part.
pub fn is_null(alloc: Global, part: SqlExpr) -> Result<SqlExpr, AllocError>
    ensures { IfOk result (λ x. x ≡ sql.IsNull part) }
{
    Ok(SqlExpr::IsNull(Boxed::new(alloc, part)?))
}

/// AND of two parts.
pub fn both(alloc: Global, one: SqlExpr, other: SqlExpr) -> Result<SqlExpr, AllocError>
    ensures { IfOk result (λ x. x ≡ sql.All (one ∷ other ∷ [])) }
{
    let mut parts = Items::new(alloc);
    parts.push(one)?;
    parts.push(other)?;
    Ok(SqlExpr::All(parts))
}

/// OR of two parts.
pub fn either(alloc: Global, one: SqlExpr, other: SqlExpr) -> Result<SqlExpr, AllocError>
    ensures { IfOk result (λ x. x ≡ sql.Any (one ∷ other ∷ [])) }
{
    let mut parts = Items::new(alloc);
    parts.push(one)?;
    parts.push(other)?;
    Ok(SqlExpr::Any(parts))
}

/// AND of any number of parts: true of none, and the part itself of one.
pub fn all_of(mut parts: Vec<SqlExpr>) -> SqlExpr
    ensures { result ≡ every parts.items }
{
    if parts.len() > 1 {
        return SqlExpr::All(Items::from_vec(parts));
    }
    parts.pop().unwrap_or(SqlExpr::Truth(true))
}
