//! The tokens of a script, read one by one.
#![tactic(auto)]

mod refusal;
mod tokens;

pub use refusal::Refusal;
pub use tokens::{after_mark, expect, next, read_name, stands};
