//! The rows that are picked from the sources of a SELECT: joins by keys and indexes, in runs of the rows of FROM.
#![tactic(auto)]

mod filters;
mod indexes;
mod joins;
mod keys;
mod picked_rows;
mod runs;

pub use indexes::keep_indexes;
pub use picked_rows::PickedRows;
pub use runs::passed_rows;
