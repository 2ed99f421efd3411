//! The clauses of a SELECT, read from the tokens of a script.
#![tactic(auto)]

mod keys;
mod rows;

pub use keys::{may_count, read_condition, read_keys};
pub use rows::{read_items, read_sources};
