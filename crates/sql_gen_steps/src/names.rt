//! The names of columns and aliases.

ghost use Rattle.std.specs.Prelude.{◌≡◌, ◌<◌, ◌+◌, ◌/◌, ◌%◌, ◌++◌, ◌∷◌, [], IfOk};
ghost use Rattle.sql_gen_step_laws.specs.Carried.{column};
ghost use Rattle.sql_gen_term_laws.specs.TermTable.{term_alias};
ghost use Rattle.sql_gen_optional_laws.specs.MatchRows.{kept};

use query_meaning::VarId;
use rdf_meaning::{Text, text_of};
use std::alloc::{AllocError, Global};

/// A letter and the two digits of a number.
fn two_digits(alloc: Global, letter: &str, number: u32) -> Result<Text, AllocError>
    requires { number < 100 }
    ensures { IfOk result (λ text. text ≡ letter.now ++ (48 + number / 10) ∷ (48 + number % 10) ∷ []) }
{
    let tens = number / 10;
    let units = number % 10;
    let text = format!(in alloc; "{letter}{tens}{units}")?;
    text_of(alloc, text.as_str())
}

/// The column of a variable.
#[tactic(auto, unfolding(sql_gen_step_laws::specs::Carried::column))]
pub(crate) fn column(alloc: Global, v: VarId) -> Result<Text, AllocError>
    ensures { IfOk result (λ text. text ≡ column v) }
{
    two_digits(alloc, "v", v.number())
}

/// The column of what the left side of a LeftJoin binds.
#[tactic(auto, unfolding(sql_gen_optional_laws::specs::MatchRows::kept))]
pub(crate) fn kept_column(alloc: Global, v: VarId) -> Result<Text, AllocError>
    ensures { IfOk result (λ text. text ≡ kept v) }
{
    two_digits(alloc, "w", v.number())
}

/// The alias of the table of terms for a variable.
#[tactic(auto, unfolding(sql_gen_term_laws::specs::TermTable::term_alias))]
pub fn term_alias(alloc: Global, v: VarId) -> Result<Text, AllocError>
    ensures { IfOk result (λ text. text ≡ term_alias v) }
{
    two_digits(alloc, "t", v.number())
}
