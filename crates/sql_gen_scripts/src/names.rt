//! The names of tables and steps.

ghost use Rattle.std.specs.Prelude.{◌≡◌, IfOk};
ghost use Rattle.sql_gen_numbered_meaning.specs.Numbered.{primary_name, lists_name};
ghost use Rattle.sql_gen_numbered_meaning.specs.Namings.{step_name};

use rdf_meaning::{SideName, Text, text_of};
use std::alloc::{AllocError, Global};

/// The table of terms.
pub(crate) const TERMS: &str = "TERM";

/// The table of a side's rows.
pub(crate) fn primary_name(side: SideName) -> &'static str
    ensures { result.now ≡ primary_name side }
{
    match side {
        SideName::Direct => "DPH",
        SideName::Reverse => "RPH",
    }
}

/// The table of a side's lists.
pub(crate) fn lists_name(side: SideName) -> &'static str
    ensures { result.now ≡ lists_name side }
{
    match side {
        SideName::Direct => "DS",
        SideName::Reverse => "RS",
    }
}

/// The name of a step: `s` and its number.
pub(crate) fn step_name(alloc: Global, number: usize) -> Result<Text, AllocError>
    ensures { IfOk result (λ name. name ≡ step_name number) }
{
    let text = format!(in alloc; "s{number}")?;
    text_of(alloc, text.as_str())
}
