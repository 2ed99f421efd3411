//! Why a script isn't bound.

ghost use Rattle.std.specs.Prelude.{◌≡◌, Some};
ghost use Rattle.sql_bind.specs.Refusals.{fault_of};
ghost use Rattle.sql_bind.specs.declared.refusal.BindRefusal.TheVariants.{NoMemory};

use sql_rows_meaning::FaultKind;
use std::alloc::{AllocError, AllocFailed};

/// The first fault of a script, or want of memory. `select` is the number of the SELECT in which the fault stands, from 1
/// in order of the text.
#[derive(Clone, Copy, Debug, PartialEq, Eq)]
pub enum BindRefusal {
    /// A source is neither a table nor an earlier step.
    NoTable { select: u64 },
    /// An alias of this SELECT isn't seen yet, or has no such column.
    NoColumn { select: u64 },
    /// An alias or an item's name stands twice in this SELECT, or the step that begins with it has the name of a table or of
    /// an earlier step.
    Twice { select: u64 },
    /// Unlike kinds under `=`, `<` or COALESCE or as the answers of a CASE, or a union whose SELECT differs from the first
    /// one in the number, names or kinds of its columns.
    KindClash { select: u64 },
    /// The expression of an ON or a WHERE, the test of a branch of CASE, or a part of AND, OR or NOT is no truth.
    NotTruth { select: u64 },
    NoMemory,
}

impl From<AllocError> for BindRefusal {
    ghost from_gives = { λ _ e. e ≡ NoMemory };

    fn from(_error: AllocError) -> BindRefusal {
        BindRefusal::NoMemory
    }
}

impl<T: Drop> From<AllocFailed<T>> for BindRefusal {
    ghost from_gives = { λ _ e. e ≡ NoMemory };

    fn from(_error: AllocFailed<T>) -> BindRefusal {
        BindRefusal::NoMemory
    }
}

/// The refusal of the SELECT with this number.
pub(crate) fn refusal_at(kind: FaultKind, select: u64) -> BindRefusal
    ensures { fault_of result ≡ Some (record { kind = kind; select = select }) }
{
    match kind {
        FaultKind::NoTable => BindRefusal::NoTable { select },
        FaultKind::NoColumn => BindRefusal::NoColumn { select },
        FaultKind::Twice => BindRefusal::Twice { select },
        FaultKind::KindClash => BindRefusal::KindClash { select },
        FaultKind::NotTruth => BindRefusal::NotTruth { select },
    }
}
