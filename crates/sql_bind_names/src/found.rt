use table_meaning::Kind;

/// The kind of a column, the number of its source within the SELECT, and its number within the source.
#[derive(Clone, Copy, Debug, PartialEq, Eq)]
pub struct Place {
    pub kind: Kind,
    pub source: usize,
    pub column: usize,
}
