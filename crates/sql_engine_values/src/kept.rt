//! Indexes that are kept.

use sql_index::Index;

/// The index of a column of a relation.
#[derive(Drop)]
pub(crate) struct KeptIndex {
    pub(crate) relation: usize,
    pub(crate) column: usize,
    pub(crate) index: Index,
}
