//! Scripts, written as text.
#![tactic(auto)]

mod cores;
mod exprs;
mod leaves;
mod scripts;

pub use scripts::write_sql;
