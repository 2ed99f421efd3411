//! Why tables were not read.

ghost use Rattle.std.specs.Prelude.{◌≡◌};
ghost use Rattle.table_text.specs.declared.refusal.TableRefusal.TheVariants.{NoMemory};

use std::alloc::{AllocError, AllocFailed};

#[derive(Clone, Copy, Debug, PartialEq, Eq)]
pub enum TableRefusal {
    NoMemory,
    /// The first line, counted from 1, that is out of the grammar.
    Bad { line: u64 },
}

impl From<AllocError> for TableRefusal {
    ghost from_gives = { λ _ e. e ≡ NoMemory };

    fn from(_e: AllocError) -> TableRefusal {
        TableRefusal::NoMemory
    }
}

impl<T: Drop> From<AllocFailed<T>> for TableRefusal {
    ghost from_gives = { λ _ e. e ≡ NoMemory };

    fn from(_e: AllocFailed<T>) -> TableRefusal {
        TableRefusal::NoMemory
    }
}
