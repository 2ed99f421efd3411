//! A script, bound over tables and run; and a compiled one, run from its text and read as an answer.
#![tactic(auto)]

mod answers;
mod rows;
mod schemas;

pub use answers::answers_of;
pub use rows::rows_of;
