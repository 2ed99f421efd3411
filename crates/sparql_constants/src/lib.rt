//! The constants of a query's patterns, each once, in order of the text.
#![tactic(auto)]

mod constant_terms;
mod kept;

pub use constant_terms::constants;
