use query_meaning::VarId;
use sqlite_items::Items;

/// What is asked of a place of a star, by the ids of terms.
#[derive(Clone, Copy, Debug, PartialEq, Eq)]
pub enum Asked {
    /// This id; 0 is that of no term.
    Constant(u32),
    /// The id that a variable has before.
    Again(VarId),
    /// Any id, for a variable that is new.
    New(VarId),
    /// An id or none, for a variable that is new.
    Maybe(VarId),
}

/// An arm of a star: the id of its predicate, the columns in which the predicate may stand, counted from 0, and what is
/// asked of the arm's value.
#[derive(Debug, Drop)]
pub struct StarArm {
    pub pred: u32,
    pub columns: Items<u32>,
    pub asked: Asked,
}
