//! How a run ended.

ghost use Rattle.std.specs.Prelude.{◌≡◌};
ghost use Rattle.run_meaning.specs.Codes.{code_of};
ghost use Rattle.run_meaning.specs.declared.status.Status.TheVariants.{NoMemory};

use crate::fault::{QueryFault, SqlFault};
use crate::which::Which;
use rdf_meaning::Text;
use std::alloc::{AllocError, AllocFailed};

/// How a run of the program ended.
#[derive(Debug, Drop)]
pub enum Status {
    /// All input was read to its end, and the whole text was put.
    Done,
    /// The words are not in the grammar of the command line.
    Usage,
    /// This line of this data file, counted from 0, is the first one that is out of the grammar.
    BadData { file: u32, line: u64 },
    /// The query is refused.
    BadQuery { why: QueryFault },
    /// A quantity passed its limit.
    Limit { which: Which },
    /// A read of this file failed.
    ReadFault { name: Text },
    /// The output took a front of the text alone.
    WriteFault,
    /// This line is the first one of the tables of a file that is out of the grammar.
    BadTables { line: u64 },
    /// The SQL part of a file is out of the grammar, too deep, or doesn't bind.
    BadSql { why: SqlFault },
    /// This line of the colouring file is the first one that is out of the grammar, names a column that its side doesn't have, or
    /// an IRI that stood on a line of this side before.
    BadColouring { line: u64 },
    /// What was asked for isn't built yet.
    NotYet,
    NoMemory,
}

impl Status {
    /// The program's exit code.
    pub fn code(&self) -> u8
        ensures { result ≡ code_of self.now }
    {
        match self {
            Status::Done => 0,
            Status::Usage => 2,
            Status::BadData { .. } => 3,
            Status::BadQuery { .. } => 4,
            Status::Limit { .. } => 5,
            Status::ReadFault { .. } => 6,
            Status::WriteFault => 7,
            Status::BadTables { .. } => 8,
            Status::BadSql { .. } => 9,
            Status::BadColouring { .. } => 10,
            Status::NotYet => 20,
            Status::NoMemory => 70,
        }
    }
}

impl From<AllocError> for Status {
    ghost from_gives = { λ _ e. e ≡ NoMemory };

    fn from(_e: AllocError) -> Status {
        Status::NoMemory
    }
}

impl<T: Drop> From<AllocFailed<T>> for Status {
    ghost from_gives = { λ _ e. e ≡ NoMemory };

    fn from(_e: AllocFailed<T>) -> Status {
        Status::NoMemory
    }
}
