//! The names of columns.

ghost use Rattle.std.specs.Prelude.{◌≡◌, ◌<◌, ◌+◌, ◌/◌, ◌%◌, ◌++◌, ◌∷◌, [], IfOk};
ghost use Rattle.std.specs.Fmt.{decimal};
ghost use Rattle.sql_gen_step_laws.specs.Carried.{column};
ghost use Rattle.sql_gen_star_meaning.specs.SideTables.{pred_name, val_name};
ghost use Rattle.sql_gen_star_meaning.specs.Partials.{cell_name};

use query_meaning::VarId;
use rdf_meaning::{Text, text_of};
use std::alloc::{AllocError, Global};

/// A letter and the two digits of a number.
fn two_digits(alloc: Global, letter: &str, number: u32) -> Result<Text, AllocError>
    requires { number < 100 }
    ensures { IfOk result (λ text. text ≡ letter.now ++ (48 + number / 10) ∷ (48 + number % 10) ∷ []) }
{
    let tens = number / 10;
    let units = number % 10;
    let text = format!(in alloc; "{letter}{tens}{units}")?;
    text_of(alloc, text.as_str())
}

/// A word with a number behind it.
fn numbered(alloc: Global, word: &str, number: u64) -> Result<Text, AllocError>
    ensures { IfOk result (λ text. text ≡ word.now ++ decimal number) }
{
    let text = format!(in alloc; "{word}{number}")?;
    text_of(alloc, text.as_str())
}

/// The column of a variable.
#[tactic(auto, unfolding(sql_gen_step_laws::specs::Carried::column))]
pub(crate) fn column(alloc: Global, v: VarId) -> Result<Text, AllocError>
    ensures { IfOk result (λ text. text ≡ column v) }
{
    two_digits(alloc, "v", v.number())
}

/// The column of an arm's cell.
#[tactic(auto, unfolding(sql_gen_star_meaning::specs::Partials::cell_name))]
pub(crate) fn cell_column(alloc: Global, arm: u32) -> Result<Text, AllocError>
    requires { arm < 100 }
    ensures { IfOk result (λ text. text ≡ cell_name arm) }
{
    two_digits(alloc, "r", arm)
}

/// The predicate's column of a pair. Pairs are counted from 0, and their names from 1.
pub(crate) fn pred_column(alloc: Global, pair: u32) -> Result<Text, AllocError>
    ensures { IfOk result (λ text. text ≡ pred_name pair) }
{
    numbered(alloc, "pred", u64::from(pair) + 1)
}

/// The value's column of a pair.
pub(crate) fn val_column(alloc: Global, pair: u32) -> Result<Text, AllocError>
    ensures { IfOk result (λ text. text ≡ val_name pair) }
{
    numbered(alloc, "val", u64::from(pair) + 1)
}
