//! Rows that are lent.

use crate::cells::Pair;

/// A row of an entity with its number among the entity's rows, from 0 on.
#[derive(Clone, Copy, Debug, Drop)]
pub struct RowView<'a> {
    pub entity: u32,
    pub spill: u32,
    pub cells: &'a [Pair],
}
