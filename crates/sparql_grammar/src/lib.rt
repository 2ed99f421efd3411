//! Reads the tokens of a query by the grammar, with the exact place where they break it.
#![tactic(auto)]

mod whole;

pub use sparql_cursor::Refusal;
pub use whole::{Written, read_written};
