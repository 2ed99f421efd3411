//! Names of variables in compiled SQL.

ghost use Rattle.std.specs.Prelude.{◌≡◌, ◌<◌, ◌+◌, ◌/◌, ◌%◌, ◌∷◌, [], IfOk};
ghost use Rattle.sql_meaning.specs.declared.expression.SqlExpr.TheVariants as sql;
ghost use Rattle.sql_gen_step_laws.specs.Carried.{column};
ghost use Rattle.sql_gen_term_laws.specs.TermTable.{term_alias};

use query_meaning::VarId;
use rdf_meaning::{Text, text_of};
use sql_meaning::SqlExpr;
use std::alloc::{AllocError, Global};

// The character of a decimal digit.
fn digit(d: u8) -> char
    requires { d < 10 }
    ensures { result ≡ 48 + d }
{
    char::from(b'0' + d)
}

// A letter and the number of a variable in two digits.
fn numbered(alloc: Global, letter: char, v: VarId) -> Result<Text, AllocError>
    requires { letter < 128 }
    ensures { IfOk result (λ x. x ≡ letter ∷ (48 + v / 10) ∷ (48 + v % 10) ∷ []) }
{
    let number = v.number() as u8;
    let mut name = String::with_capacity(alloc, 3)?;
    name.push(letter)?;
    name.push(digit(number / 10))?;
    name.push(digit(number % 10))?;
    text_of(alloc, name.as_str())
}

/// The column of a variable in a step: `v` and two digits.
#[tactic(auto, unfolding(sql_gen_step_laws::specs::Carried::column))]
pub fn column_name(alloc: Global, v: VarId) -> Result<Text, AllocError>
    ensures { IfOk result (λ x. x ≡ column v) }
{
    numbered(alloc, 'v', v)
}

/// The alias of the table of terms that is joined for a variable: `t` and two digits.
#[tactic(auto, unfolding(sql_gen_term_laws::specs::TermTable::term_alias))]
pub fn term_alias(alloc: Global, v: VarId) -> Result<Text, AllocError>
    ensures { IfOk result (λ x. x ≡ term_alias v) }
{
    numbered(alloc, 't', v)
}

/// A column of a variable's term.
pub fn term_column(alloc: Global, v: VarId, column: &str) -> Result<SqlExpr, AllocError>
    ensures { IfOk result (λ x. x ≡ sql.Name (term_alias v) column.now) }
{
    let alias = term_alias(alloc, v)?;
    Ok(SqlExpr::Name(alias, text_of(alloc, column)?))
}
