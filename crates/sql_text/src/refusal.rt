//! Why a text was not read as a script.

use std::alloc::AllocError;

#[derive(Clone, Copy, Debug, PartialEq, Eq)]
pub enum SqlRefusal {
    NoMemory,
    /// A token begins an expression that stands inside 1,024 others.
    Deep,
    /// The text breaks the grammar at the byte `at`: the first of a token, or the end of the text.
    Syntax { at: usize },
}

impl From<AllocError> for SqlRefusal {
    ghost use Rattle.std.specs.Prelude.{◌≡◌};
    ghost use Rattle.sql_text.specs.declared.refusal.SqlRefusal.TheVariants as refusal;

    ghost from_gives = { λ _ r. r ≡ refusal.NoMemory };

    fn from(_: AllocError) -> SqlRefusal {
        SqlRefusal::NoMemory
    }
}
