/// Why a script doesn't bind.
#[derive(Clone, Copy, Debug, PartialEq, Eq)]
pub enum FaultKind {
    /// A source is neither a table nor an earlier step.
    NoTable,
    /// An alias isn't seen yet, or has no such column.
    NoColumn,
    /// An alias or an item's name stands twice, or a step has the name of a table or of an earlier step.
    Twice,
    /// Unlike kinds under `=`, `<` or COALESCE or as the answers of a CASE, or a union whose SELECT differs from the first one in the number,
    /// names or kinds of its columns.
    KindClash,
    /// The expression of an ON or a WHERE, the test of a branch of CASE, or a part of AND, OR or NOT is no truth.
    NotTruth,
}

/// A fault, and the number of the SELECT in which it stands, from 1 in order of the text.
#[derive(Clone, Copy, Debug, PartialEq, Eq)]
pub struct Fault {
    pub kind: FaultKind,
    pub select: u64,
}
