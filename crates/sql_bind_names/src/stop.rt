//! Why a part of a script isn't bound.

ghost use Rattle.std.specs.Prelude.{◌≡◌};
ghost use Rattle.sql_bind_names.specs.declared.stop.Stop.TheVariants as stop;

use sql_rows_meaning::FaultKind;
use std::alloc::{AllocError, AllocFailed};

/// A fault of a SELECT, or want of memory.
#[derive(Clone, Copy, Debug, PartialEq, Eq)]
pub enum Stop {
    NoMemory,
    Fault(FaultKind),
}

impl From<AllocError> for Stop {
    ghost from_gives = { λ _ s. s ≡ stop.NoMemory };

    fn from(_error: AllocError) -> Stop {
        Stop::NoMemory
    }
}

impl<T: Drop> From<AllocFailed<T>> for Stop {
    ghost from_gives = { λ _ s. s ≡ stop.NoMemory };

    fn from(_error: AllocFailed<T>) -> Stop {
        Stop::NoMemory
    }
}

impl From<FaultKind> for Stop {
    ghost from_gives = { λ kind s. s ≡ stop.Fault kind };

    fn from(kind: FaultKind) -> Stop {
        Stop::Fault(kind)
    }
}
