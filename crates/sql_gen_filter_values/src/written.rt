//! Variables and constants can be written in SQL: their types say so. These functions do nothing else than to look there.

ghost use Rattle.std.specs.Prelude.{◌≡◌, true};
ghost use Rattle.std.specs.Str.{is_utf8};
ghost use Rattle.rdf_value_meaning.specs.Values.{value_of};
ghost use Rattle.table_meaning.specs.Ints.{is_wide_int};
ghost use Rattle.sql_gen_filter_form_laws.specs.Written.{is_variable, is_written_number, is_written_term};

use query_meaning::VarId;
use rdf_meaning::{Term, Text};

/// The number of a variable is below 64.
pub fn variable_is_written(v: VarId)
    ensures { is_variable v ≡ true }
{
    v.number();
}

// A number of this type is an int of the dialect.
fn int_is_written(number: i128)
    ensures { is_wide_int number ≡ true }
{
    let _ = number;
}

fn number_is_written(number: Option<i128>)
    ensures { is_written_number number ≡ true }
{
    if let Some(number) = number {
        int_is_written(number);
    }
}

fn text_is_written(text: &Text)
    ensures { is_utf8 text.now ≡ true }
{
    text.bytes();
}

/// The texts of a constant are UTF-8, and its value is a number of 128 bits.
pub(crate) fn constant_is_written(term: &Term, number: Option<i128>)
    requires { number ≡ value_of term.now }
    ensures { is_written_term term.now ≡ true }
{
    text_is_written(&term.text);
    text_is_written(&term.aux);
    number_is_written(number);
}
