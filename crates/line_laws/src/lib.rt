//! Laws of data lines: the grammar and the readings that are computed agree.
#![tactic(auto)]

mod laws;

pub use laws::{files_are_read_once, labels_are_kept_apart, lines_are_read};
