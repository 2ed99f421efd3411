//! Why a term was not noted.

ghost use Rattle.std.specs.Prelude.{◌≡◌};
ghost use Rattle.term_book.specs.declared.refusal.BookRefusal.TheVariants.{NoMemory};

use std::alloc::{AllocError, AllocFailed};

#[derive(Clone, Copy, Debug, PartialEq, Eq)]
pub enum BookRefusal {
    NoMemory,
    /// The book holds as many terms as it may, and the term isn't among them.
    Full,
}

impl From<AllocError> for BookRefusal {
    ghost from_gives = { λ _ e. e ≡ NoMemory };

    fn from(_e: AllocError) -> BookRefusal {
        BookRefusal::NoMemory
    }
}

impl<T: Drop> From<AllocFailed<T>> for BookRefusal {
    ghost from_gives = { λ _ e. e ≡ NoMemory };

    fn from(_e: AllocFailed<T>) -> BookRefusal {
        BookRefusal::NoMemory
    }
}
