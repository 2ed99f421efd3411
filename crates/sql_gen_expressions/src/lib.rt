//! Expressions of compiled SQL, each made of its parts, and the names of variables in them.
#![tactic(auto)]

mod names;
mod operators;

pub use names::{column_name, term_alias, term_column};
pub use operators::{all_of, both, either, equal, int, is_null, less, negation, text};
