//! Rows of a compiled query read as its answer, and answers and cells as text.
#![tactic(auto)]

mod answers;
mod cells;
mod decoding;

pub use answers::write_answers;
pub use cells::write_cells;
pub use decoding::{Answers, decode};
