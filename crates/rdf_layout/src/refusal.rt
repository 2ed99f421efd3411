//! Why a triple isn't stored.

ghost use Rattle.std.specs.Prelude.{◌≡◌};
ghost use Rattle.rdf_layout.specs.Refused.{of_book};

use primary_rows::SideRefusal;
use std::alloc::AllocError;
use term_book::BookRefusal;

/// How many triples a store holds at most.
pub(crate) const MOST_TRIPLES: u64 = 1_000_000;

#[derive(Clone, Copy, Debug, PartialEq, Eq)]
pub enum StoreRefusal {
    /// As many triples are stored as may be, and this one isn't among them.
    Triples,
    /// The dictionary would pass the number of terms that it may hold.
    Terms,
    /// A side needs a list, and the last list id was given out.
    Lists,
    NoMemory,
}

impl From<SideRefusal> for StoreRefusal {
    ghost use Rattle.std.specs.Prelude.{◌≡◌};
    ghost use Rattle.rdf_layout.specs.Refused.{of_side};

    ghost from_gives = { λ r e. e ≡ of_side r };

    fn from(refusal: SideRefusal) -> StoreRefusal {
        match refusal {
            SideRefusal::ListsFull => StoreRefusal::Lists,
            SideRefusal::NoMemory => StoreRefusal::NoMemory,
        }
    }
}

impl From<AllocError> for StoreRefusal {
    ghost use Rattle.std.specs.Prelude.{◌≡◌};
    ghost use Rattle.rdf_layout.specs.declared.refusal.StoreRefusal.TheVariants.{NoMemory};

    ghost from_gives = { λ _ e. e ≡ NoMemory };

    fn from(_error: AllocError) -> StoreRefusal {
        StoreRefusal::NoMemory
    }
}

/// The refusal of a triple whose terms weren't noted: triples go before terms.
pub(crate) fn of_book(refusal: BookRefusal, full: bool) -> StoreRefusal
    ensures { result ≡ of_book refusal full }
{
    match refusal {
        BookRefusal::NoMemory => StoreRefusal::NoMemory,
        BookRefusal::Full => {
            if full {
                StoreRefusal::Triples
            } else {
                StoreRefusal::Terms
            }
        }
    }
}
