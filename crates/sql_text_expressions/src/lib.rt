//! Expressions, read from the tokens of a script.
#![tactic(auto)]

mod exprs;
mod leaves;
mod start;

pub use exprs::read_expr;
