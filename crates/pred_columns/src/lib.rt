//! The candidate columns of predicates, and plain data on the layout that several crates share.
#![tactic(auto)]

mod columns;
mod facts;
mod hashes;

pub use columns::{ColourPair, ColumnRefusal, Columns, share_columns};
pub use facts::{ConstCount, Counts, IdPair, LayoutFacts, QueryIds, Spilled};
