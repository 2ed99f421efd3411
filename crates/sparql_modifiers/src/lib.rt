//! Readers of what stands behind the group of a query: its order and its slice.
#![tactic(auto)]

mod next;
mod order;
mod slice;

pub use order::read_may_order;
pub use slice::{Slice, read_may_slice};
