//! The translation of queries from what is written to the algebra.
#![tactic(auto)]

mod elements;
mod gathering;
mod translation;
mod unions;

pub use translation::translate;
