use crate::variable::VarId;
use sqlite_items::Items;

/// A variable to order by, rising or falling.
#[derive(Clone, Copy, Debug, PartialEq, Eq)]
pub struct Key {
    pub var: VarId,
    pub down: bool,
}

/// What is done with the solutions (SPARQL 1.1 Query, section 15).
#[derive(Debug, Drop)]
pub struct Modifiers {
    pub shown: Items<VarId>,
    pub distinct: bool,
    pub keys: Items<Key>,
    /// Rows left out in front.
    pub skip: u64,
    /// The greatest count of rows.
    pub most: Option<u64>,
}
