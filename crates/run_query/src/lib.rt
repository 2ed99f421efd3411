//! The text of the answer to the query of a file, from the tables of changes.
#![tactic(auto)]

mod answer;
mod work;

pub use work::query_text;
