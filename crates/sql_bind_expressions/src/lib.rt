//! Expressions of a SELECT: their kinds, and the places of their names, or their first fault.
#![tactic(auto)]

mod expressions;
mod kinds;

pub use expressions::{Typed, bind_expr, bind_truth};
pub use kinds::{BranchKind, same_kind};
