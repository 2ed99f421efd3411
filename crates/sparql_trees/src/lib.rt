//! Trees of the algebra out of their parts: what the elements of a group make of what was gathered before them.
#![tactic(auto)]

mod taking;
mod trees;

pub use taking::{nothing_yet, take_condition, take_optional, take_triples, take_union};
pub use trees::{boxed_whole, union, whole};
