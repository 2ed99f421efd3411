//! Why changes were not taken.

ghost use Rattle.std.specs.Prelude.{◌≡◌};
ghost use Rattle.rdf_triples.specs.declared.refusal.LoadRefusal.TheVariants.{NoMemory};
ghost use Rattle.rdf_triples.specs.Refusals.{refusal_for};

use run_meaning::Which;
use std::alloc::{AllocError, AllocFailed};
use term_book::BookRefusal;

#[derive(Clone, Copy, Debug, PartialEq, Eq)]
pub enum LoadRefusal {
    NoMemory,
    /// The limit that the first change that passes one passes.
    Limit(Which),
}

impl From<AllocError> for LoadRefusal {
    ghost from_gives = { λ _ e. e ≡ NoMemory };

    fn from(_e: AllocError) -> LoadRefusal {
        LoadRefusal::NoMemory
    }
}

impl<T: Drop> From<AllocFailed<T>> for LoadRefusal {
    ghost from_gives = { λ _ e. e ≡ NoMemory };

    fn from(_e: AllocFailed<T>) -> LoadRefusal {
        LoadRefusal::NoMemory
    }
}

// A book that is full passes the limit on terms.
impl From<BookRefusal> for LoadRefusal {
    ghost from_gives = { λ refusal e. e ≡ refusal_for refusal };

    fn from(refusal: BookRefusal) -> LoadRefusal {
        match refusal {
            BookRefusal::NoMemory => LoadRefusal::NoMemory,
            BookRefusal::Full => LoadRefusal::Limit(Which::Terms),
        }
    }
}
