//! The plan of a query: in each leaf a star for each pattern, in the order of the leaf's flow.
#![tactic(auto)]

mod plans;
mod stars;
mod trees;

pub use plans::plan_query;
pub use query_plan_meaning::{Arm, Plan, Star, StarBody};
