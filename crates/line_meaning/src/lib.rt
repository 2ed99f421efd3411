//! What data lines mean: how a text is cut into lines, what a line of data file n says, and what a file changes.
#![tactic(auto)]

mod enclosure;

pub use enclosure::Enclosure;
