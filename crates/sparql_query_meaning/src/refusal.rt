//! Why a text isn't read as a query.

use sparql_meaning::Feature;
use std::alloc::AllocError;

/// A quantity of a query that has a greatest number.
#[derive(Clone, Copy, Debug, PartialEq, Eq)]
pub enum QueryLimit {
    /// Bytes of the text: 65,536.
    Query,
    /// Triple patterns: 48.
    Patterns,
    /// Distinct names of variables: 64.
    Variables,
    /// Groups open at once: 24.
    Groups,
    /// Groups in all: 512.
    Blocks,
    /// Brackets and `!` open at once in a filter: 48.
    Depth,
    /// Keys of the order: 64.
    Keys,
    /// Digits behind `LIMIT` or `OFFSET`, without leading zeros: 18.
    Digits,
}

/// Why a text isn't read as a query; places are in bytes.
#[derive(Clone, Copy, Debug, PartialEq, Eq)]
pub enum QueryRefusal {
    NoMemory,
    NotInFragment { feature: Feature, at: usize },
    Syntax { at: usize },
    UnknownPrefix { at: usize },
    Limit { which: QueryLimit },
}

impl From<AllocError> for QueryRefusal {
    ghost use Rattle.std.specs.Prelude.{◌≡◌};
    ghost use Rattle.sparql_query_meaning.specs.declared.refusal.QueryRefusal.TheVariants as refusal;

    ghost from_gives = { λ _ r. r ≡ refusal.NoMemory };

    fn from(_: AllocError) -> QueryRefusal {
        QueryRefusal::NoMemory
    }
}
