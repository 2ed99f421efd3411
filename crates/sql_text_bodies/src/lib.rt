//! Bodies of SELECTs, read from the tokens of a script.
#![tactic(auto)]

mod bodies;
mod parts;

pub use bodies::read_body;
