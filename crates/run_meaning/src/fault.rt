//! Why what was read isn't run.

use sparql_meaning::Feature;

/// Why a text is no query of the fragment; places are in bytes, counted from 0.
#[derive(Clone, Copy, Debug, PartialEq, Eq)]
pub enum QueryFault {
    /// A form of SPARQL that isn't in the fragment stands at this place.
    NotInFragment { feature: Feature, at: usize },
    /// The text breaks the grammar at this place.
    Syntax { at: usize },
    /// The prefix of the name at this place isn't declared before it.
    UnknownPrefix { at: usize },
}

/// Why the SQL part of a file isn't run.
#[derive(Clone, Copy, Debug, PartialEq, Eq)]
pub enum SqlFault {
    /// The text breaks the grammar at this byte, counted from the first one of the SQL.
    Syntax { at: usize },
    /// An expression stands inside 1,024 others.
    Deep,
    /// A source of this SELECT is neither a table nor an earlier step.
    NoTable { select: u64 },
    /// An alias of this SELECT isn't seen yet, or has no such column.
    NoColumn { select: u64 },
    /// An alias or an item's name stands twice in this SELECT, or the step that begins with it has the name of a table or of an earlier step.
    Twice { select: u64 },
    /// Unlike kinds under `=`, `<` or COALESCE or as the answers of a CASE, or a union whose SELECT differs from the first one in the number,
    /// names or kinds of its columns.
    KindClash { select: u64 },
    /// The expression of an ON or a WHERE, the test of a branch of CASE, or a part of AND, OR or NOT is no truth.
    NotTruth { select: u64 },
}
