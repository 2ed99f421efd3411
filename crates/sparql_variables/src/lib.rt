//! Sets of variables of a query, which has at most 64.
#![tactic(auto)]

mod var_set;

pub use var_set::VarSet;
