//! Readers of what stands before the group of a query.
#![tactic(auto)]

mod head;
mod prologue;

pub use head::{Head, read_head};
