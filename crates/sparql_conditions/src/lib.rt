//! Readers of the truth expressions of a query. A bracketed text may be a value and a truth: it is read once, as either.
#![tactic(auto)]

mod conditions;
mod filters;
mod operand;

pub use filters::read_condition;
