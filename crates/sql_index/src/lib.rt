//! Rows of a column by their cells: an index that is built once, and then asked without memory.
#![tactic(auto)]

mod column;
mod index;
mod rows;

pub use column::CellColumn;
pub use index::{Index, share_index};
