//! Why no script was read.

use std::alloc::AllocError;

#[derive(Clone, Copy, Debug, PartialEq, Eq)]
pub enum Refusal {
    NoMemory,
    /// A token begins an expression that stands inside 1,024 others.
    Deep,
    /// `left` counts the tokens from the one that breaks the grammar on.
    Syntax { left: usize },
}

impl From<AllocError> for Refusal {
    ghost use Rattle.std.specs.Prelude.{◌≡◌};
    ghost use Rattle.sql_text_cursor.specs.declared.refusal.Refusal.TheVariants as refusal;

    ghost from_gives = { λ _ r. r ≡ refusal.NoMemory };

    fn from(_: AllocError) -> Refusal {
        Refusal::NoMemory
    }
}
