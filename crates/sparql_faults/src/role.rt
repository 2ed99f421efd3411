//! Where a token stands.

use crate::brackets::Brackets;

/// A place of a triple.
#[derive(Clone, Copy, Debug, PartialEq, Eq)]
pub(crate) enum Place {
    Subject,
    Predicate,
    Object,
}

/// What the next token is a part of.
#[derive(Drop)]
pub(crate) enum Role {
    /// What stands before the group of the query.
    Head,
    /// A part of a triple, or something else of a group.
    Next(Place),
    /// The tag or the datatype of a text.
    TextOf(Place),
    /// The datatype of a text.
    TypeOf(Place),
    BehindObject,
    /// A filter, with whether a `!` waits for its operand.
    Filter(Brackets, bool),
    /// What stands behind the group of the query.
    End,
    Order,
    Slice,
}
